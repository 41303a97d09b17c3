//! Cases: lines that are read, and the lines that they are answered with.
use crate::answer::{Kind, push_answer};
use crate::notation::push_bytes;
use std::alloc::Global;
use word_base::NoMemory;

/// What stands around the texts of cases and around their answers.
#[derive(Clone, Copy)]
struct Frame<'a> {
    before: &'a str,
    behind: &'a str,
    answer_before: &'a str,
    answer_behind: &'a str,
}

/// The lines that answer the lines of a text.
pub(crate) fn answers(alloc: Global, cases: &str) -> Result<String, NoMemory> {
    let mut out = String::new(alloc);
    push_answers(alloc, &mut out, cases)?;
    Ok(out)
}

fn push_answers(alloc: Global, out: &mut String, cases: &str) -> Result<(), NoMemory> {
    let mut frame = Frame {
        before: "",
        behind: "",
        answer_before: "",
        answer_behind: "",
    };
    for line in cases.split('\n') {
        match frame.changed_by(line) {
            Some(changed) => frame = changed,
            None => push_line(alloc, out, frame, line)?,
        }
    }
    Ok(())
}

impl<'a> Frame<'a> {
    // The frame behind a line that changes it.
    fn changed_by(self, line: &'a str) -> Option<Self> {
        let (word, around) = line.split_once(' ')?;
        let (before, behind) = around.split_once("``")?;
        match word {
            "frame" => Some(Frame {
                before,
                behind,
                answer_before: "",
                answer_behind: "",
            }),
            "answers" => Some(Frame {
                before: self.before,
                behind: self.behind,
                answer_before: before,
                answer_behind: behind,
            }),
            _ => None,
        }
    }

    // An answer without what stands around it, or the whole.
    fn inner<'b>(self, answer: &'b str) -> &'b str {
        match answer.strip_prefix(self.answer_before) {
            Some(rest) => rest.strip_suffix(self.answer_behind).unwrap_or(answer),
            None => answer,
        }
    }
}

// Puts what answers a line behind, where it is no remark.
fn push_line(
    alloc: Global,
    out: &mut String,
    frame: Frame<'_>,
    line: &str,
) -> Result<(), NoMemory> {
    if line.is_empty() || line.starts_with('#') {
        return Ok(());
    }
    let Some((word, text)) = line.split_once(' ') else {
        return push_no_case(out, line);
    };
    match (Kind::of(word), text.split_once("`?`")) {
        (Some(kind), Some((front, back))) => {
            push_case_for_each_byte(alloc, out, frame, kind, front, back)
        }
        (Some(kind), None) => push_case(alloc, out, frame, kind, text),
        (None, _) => push_no_case(out, line),
    }
}

fn push_case_for_each_byte(
    alloc: Global,
    out: &mut String,
    frame: Frame<'_>,
    kind: Kind,
    front: &str,
    back: &str,
) -> Result<(), NoMemory> {
    for byte in 0..=255u8 {
        let text = format!(in alloc; "{front}`{byte:02x}`{back}")?;
        push_case(alloc, out, frame, kind, text.as_str())?;
    }
    Ok(())
}

fn push_case(
    alloc: Global,
    out: &mut String,
    frame: Frame<'_>,
    kind: Kind,
    text: &str,
) -> Result<(), NoMemory> {
    let mut source = Vec::new(alloc);
    if !push_source(&mut source, frame, text)? {
        return push_no_case(out, text);
    }
    let mut answer = String::new(alloc);
    push_answer(alloc, &mut answer, kind, &source, frame.before.len())?;
    let word = kind.word();
    let shown = frame.inner(answer.as_str());
    write!(out, "{word} {text} ==> {shown}\n")?;
    Ok(())
}

// Puts the bytes of a text in its frame behind, and says whether it is in the notation.
fn push_source(source: &mut Vec<u8>, frame: Frame<'_>, text: &str) -> Result<bool, NoMemory> {
    source.extend_from_slice(frame.before.as_bytes())?;
    let is_written = push_bytes(source, text)?;
    source.extend_from_slice(frame.behind.as_bytes())?;
    Ok(is_written)
}

fn push_no_case(out: &mut String, text: &str) -> Result<(), NoMemory> {
    write!(out, "{text} ==> no case\n")?;
    Ok(())
}
