//! Walks that are kept, so that no function is walked over twice.
ghost use Rattle.std.specs.Prelude.{◌≡◌, ◌<◌, None, length, vec_len, IfOk, IfSome};
ghost use Rattle.c25_isa.specs.Image.{Contents};
ghost use Rattle.cc_check.specs.Kept.{IsWalkOf, AreKept};

use c25_isa::Image;
use c25_walk::{WalkFault, WalkReport, walk};
use std::alloc::Global;
use word_base::NoMemory;

/// What the walk over a function comes to. Want of memory is never kept.
#[derive(Drop)]
pub(crate) enum Walked {
    Report(WalkReport),
    BadWord { at: u16 },
    UnknownAddress { at: u16 },
}

impl Walked {
    /// Walks over a function of the image.
    pub(crate) fn of(alloc: Global, image: &Image, function: u16) -> Result<Self, NoMemory>
        requires { function < length image.now.functions }
        ensures { IfOk result (IsWalkOf image.now function) }
    {
        match walk(alloc, image, function) {
            Ok(report) => Ok(Walked::Report(report)),
            Err(WalkFault::BadWord { at }) => Ok(Walked::BadWord { at }),
            Err(WalkFault::UnknownAddress { at }) => Ok(Walked::UnknownAddress { at }),
            Err(WalkFault::NoMemory) => Err(NoMemory),
        }
    }
}

/// What the walks over functions came to, by the functions' numbers. All of them together list no more addresses than the image has words:
/// no two functions share a word, and a word lists one address at most.
#[derive(Drop)]
pub(crate) struct Walks {
    kept: Vec<Option<Walked>>,
}

impl Walks {
    /// No function of the image is walked over yet.
    pub(crate) fn new(alloc: Global, image: &Image) -> Result<Self, NoMemory>
        ensures { IfOk result (λ walks. AreKept image.now walks.kept.items) }
    {
        let mut kept = Vec::new(alloc);
        for _ in 0..image.functions().len() {
            kept.push(None)?;
        }
        Ok(Walks { kept })
    }

    /// What is kept for a function.
    pub(crate) fn kept(&self, function: u16) -> Option<&Walked>
        requires { function < vec_len self.now.kept }
        ensures { (image : Contents) → AreKept image self.now.kept.items → IfSome result (λ walked. IsWalkOf image function walked.now) }
    {
        self.kept[usize::from(function)].as_ref()
    }

    /// Keeps the walk over a function.
    pub(crate) fn keep(&mut self, function: u16, walked: Walked)
        requires { function < vec_len self.old.kept }
        ensures { (image : Contents) → AreKept image self.old.kept.items → IsWalkOf image function walked → AreKept image self.new.kept.items }
    {
        self.kept[usize::from(function)] = Some(walked);
    }
}
