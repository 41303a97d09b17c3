//! What is known at a point of a run: the objects, the input that is left, and the outputs so far.
ghost use Rattle.std.specs.Prelude.{None};
ghost use Rattle.c_tree.specs.Eval as eval;
ghost use Rattle.c_tree.specs.Store as runs;
ghost use Rattle.c_state.specs.Values.{value_of};
ghost use Rattle.c_state.specs.Worlds.{world_of, ComesTo};

use crate::inputs::Inputs;
use crate::store::Store;
use crate::value::{Cell, Spot, Stop, Value, bad_pointer, undefined};
use c_tree::{Port, ScalarType, points};
use word_base::{Ending, PortWord, UndefinedKind};

/// The objects, the input that is left, and the outputs so far, in their order.
#[derive(Drop)]
pub struct State {
    pub store: Store,
    pub inputs: Inputs,
    pub outs: Vec<PortWord>,
}

impl State {
    /// The value of a cell, read as its type says.
    pub fn load(&self, spot: Spot, kind: Option<ScalarType>, at: u32) -> Result<Value, Stop>
        ensures { ComesTo value_of (runs.load spot.object.number spot.index (eval.points kind) at (world_of self.now)) self.now result }
    {
        match self.store.cell(spot.object, spot.index, points(kind)) {
            Some(Cell::Holds(value)) => Ok(value),
            Some(Cell::Unset) => Err(undefined(UndefinedKind::Indeterminate, at)),
            None => Err(bad_pointer(at)),
        }
    }

    /// A value goes into a cell, written as its type says.
    pub fn save(
        &mut self,
        spot: Spot,
        kind: Option<ScalarType>,
        value: Value,
        at: u32,
    ) -> Result<Value, Stop>
        ensures { ComesTo value_of (runs.save spot.object.number spot.index (eval.points kind) (value_of value) at (world_of self.old)) self.new result }
    {
        if self
            .store
            .cell(spot.object, spot.index, points(kind))
            .is_none()
        {
            return Err(bad_pointer(at));
        }
        self.store.set(spot.object, spot.index, value);
        Ok(value)
    }

    /// The next word of a port, or the end of the run.
    pub fn take(&mut self, port: Port) -> Result<Value, Stop>
        ensures { ComesTo value_of (runs.take_word port (world_of self.old)) self.new result }
    {
        match self.inputs.take(port.number()) {
            Some(word) => Ok(Value::Word(word)),
            None => Err(Stop::Ended(Ending::InputEnded(port.number()))),
        }
    }

    /// A word goes out.
    pub fn emit(&mut self, port: Port, value: Value, at: u32) -> Result<(), Stop>
        ensures { ComesTo (λ _. None) (eval.emit port (value_of value) at (world_of self.old)) self.new result }
    {
        let Value::Word(word) = value else {
            return Err(bad_pointer(at));
        };
        self.outs.push(PortWord::new(port.number(), word))?;
        Ok(())
    }
}
