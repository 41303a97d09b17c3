//! The words that the ports have left.
ghost use Rattle.std.specs.Prelude.{◌≡◌, ◌<◌, ◌==◌, if◌then◌else◌, [], ◌∷◌, ◌++◌, vec_len, replicate, IfOk, OnOk, MatchOption};
ghost use Rattle.word_base.specs.Ports.{input_of};
ghost use Rattle.c_state.specs.Inputs.{words_in, words_of, input_left, IsTaken};

use std::alloc::Global;
use std::collections::VecDeque;
use word_base::{NoMemory, Ports};

/// How many ports there are.
const PORTS: usize = 16;

/// The words of each port, the next one first.
#[derive(Drop)]
pub struct Inputs {
    ports: Vec<VecDeque<u16>>,
}

impl Inputs {
    /// The words of the lines of a port file.
    pub fn new(alloc: Global, ports: &Ports) -> Result<Self, NoMemory>
        ensures { IfOk result (λ inputs. input_left inputs ≡ input_of ports.now) }
    {
        let mut queues = empty(alloc)?;
        for line in ports.lines() {
            append(&mut queues, line.port(), line.word())?;
        }
        Ok(Inputs { ports: queues })
    }

    /// Takes the next word of a port, where there is one.
    pub(crate) fn take(&mut self, port: u8) -> Option<u16>
        ensures { MatchOption result
            (input_left self.old port ≡ [])
            (λ word. IsTaken (input_left self.old) port word (input_left self.new)) }
    {
        self.ports.get_mut(usize::from(port))?.pop_front()
    }
}

// Ports without words.
fn empty(alloc: Global) -> Result<Vec<VecDeque<u16>>, NoMemory>
    ensures ports { IfOk result (λ queues. vec_len queues ≡ 16) }
    ensures words { IfOk result (λ queues. words_in queues.items ≡ replicate 16 []) }
{
    let mut queues = Vec::new(alloc);
    for _ in 0..PORTS {
        queues.push(VecDeque::new(alloc))?;
    }
    Ok(queues)
}

// A word behind the others of its port.
fn append(queues: &mut Vec<VecDeque<u16>>, port: u8, word: u16) -> Result<(), NoMemory>
    requires { port < vec_len queues.old }
    ensures ports { OnOk result (vec_len queues.new ≡ vec_len queues.old) }
    ensures words { OnOk result (words_of (words_in queues.new.items) ≡ (λ p. if p == port then words_of (words_in queues.old.items) p ++ word ∷ [] else words_of (words_in queues.old.items) p)) }
{
    queues[usize::from(port)].push_back(word)?;
    Ok(())
}
