//! Code on its way: each method appends what an entry becomes. It fails only where memory is wanting.
ghost use Rattle.std.specs.Prelude.{◌≡◌, ◌≤◌, ◌++◌, length, IfOk, OnOk, false, ◌∷◌, []};
ghost use Rattle.acc_code.specs.AccView.{item_list};
ghost use Rattle.c25_code.specs.Items.{plain_items, entry_code};
ghost use Rattle.emit_control.specs.Cuts as cuts;
ghost use Rattle.emit_control.specs.Cuts.{naming, begun};
ghost use Rattle.emit_control.specs.Emits as emits;
ghost use Rattle.emit_control.specs.Emits.{Adds, Emits, Puts, state_of};
ghost use Rattle.emit_control.specs.Entries as entries;
ghost use Rattle.emit_control.specs.Entries.{flushed};
ghost use Rattle.emit_control.specs.Flow as flow;
ghost use Rattle.emit_control.specs.Settings as settings;
ghost use Rattle.emit_control.specs.Settings.{setting_of};
ghost use Rattle.emit_blocks.specs.Places.{places_of};
ghost use Rattle.emit_blocks.specs.Right.{IsRightRun};
ghost use Rattle.emit_blocks.specs.Steps as steps;
ghost use Rattle.emit_blocks.specs.Steps.{run_at};

use crate::ending::Ending;
use crate::items::{push_call, push_entry, push_jump, push_mark, push_return, push_wipe};
use crate::named::Named;
use crate::setting::{Setting, helper_name};
use crate::state::Before;
use crate::tests::{jump_on, opposite};
use acc_code::{AccItem, HelperName, Test};
use c_tree::VarRef;
use c25_isa::{JumpOp, PieceItem};
use emit_blocks::append_run;
use std::alloc::Global;
use word_base::NoMemory;

/// The code of a function up to some place.
#[derive(Drop)]
pub(crate) struct Code {
    pub(crate) items: Vec<PieceItem>,
    pub(crate) before: Before,
    pub(crate) named: Named,
}

impl Code {
    /// The code at the beginning of a function, by the word that keeps its return address.
    pub(crate) fn begin(alloc: Global, back: Option<u16>) -> Result<Self, NoMemory>
        ensures items { IfOk result (λ c. Puts [] (plain_items (entry_code back)) c.items.items) }
        ensures state { IfOk result (λ c. state_of c ≡ begun) }
    {
        let mut items = Vec::new(alloc);
        push_entry(&mut items, back)?;
        Ok(Code {
            items,
            before: Before::Shut,
            named: Named::none(alloc),
        })
    }

    /// The operations at the front of a list, and what stands behind them.
    pub(crate) fn run<'a>(
        &mut self,
        alloc: Global,
        setting: &Setting,
        items: &'a [AccItem],
    ) -> Result<&'a [AccItem], NoMemory>
        requires { IsRightRun (places_of setting.now.site) (run_at (item_list items.now)) }
        ensures emits { OnOk result (Emits (setting_of setting.now) self.old (flushed (run_at (item_list items.now))) self.new) }
        ensures behind { IfOk result (λ rest. item_list rest.now ≡ steps.behind_run (item_list items.now)) }
        ensures most { IfOk result (λ rest. length rest.now ≤ length items.now) }
    {
        let rest = append_run(alloc, &mut self.items, &setting.site, items)?;
        self.before = self.before.behind_operations(items);
        Ok(rest)
    }

    pub(crate) fn head(&mut self, label: u32) -> Result<(), NoMemory>
        ensures { OnOk result ((m : settings.Setting) → Adds m self.old (entries.Head label) self.new) }
    {
        push_mark(&mut self.items, label)?;
        self.before = Before::Shut;
        Ok(())
    }

    /// A jump, which names its label.
    pub(crate) fn jump(&mut self, op: JumpOp, label: u32) -> Result<(), NoMemory>
        ensures puts { OnOk result (Puts self.old.items.items (cuts.jump_item op label ∷ []) self.new.items.items) }
        ensures state { OnOk result (state_of self.new ≡ naming label (state_of self.old)) }
    {
        push_jump(&mut self.items, op, label)?;
        self.named.add(label)
    }

    pub(crate) fn branch(&mut self, test: Test, label: u32) -> Result<(), NoMemory>
        ensures { OnOk result ((m : settings.Setting) → Adds m self.old (entries.Branch test label) self.new) }
    {
        self.jump(jump_on(test), label)?;
        self.before = Before::Shut;
        Ok(())
    }

    pub(crate) fn goto(&mut self, label: u32) -> Result<(), NoMemory>
        ensures { OnOk result ((m : settings.Setting) → Adds m self.old (entries.Goto label) self.new) }
    {
        self.jump(JumpOp::B, label)?;
        self.before = Before::Gone;
        Ok(())
    }

    // What the end of a block becomes.
    #[tactic(auto, using(crate::proofs::Appending::put))]
    fn place_items(&mut self, label: u32) -> Result<(), NoMemory>
        ensures puts { OnOk result (Puts self.old.items.items (cuts.place_items ((state_of self.old).named label) self.old.before label) self.new.items.items) }
        ensures state { OnOk result (cuts.shut (state_of self.new) ≡ cuts.behind_place ((state_of self.old).named label) label (state_of self.old)) }
    {
        if self.named.has(label) {
            return push_mark(&mut self.items, label);
        }
        match self.before {
            Before::Open => {
                self.jump(JumpOp::B, label)?;
                push_mark(&mut self.items, label)
            }
            Before::Shut | Before::Gone => Ok(()),
        }
    }

    pub(crate) fn place(&mut self, label: u32) -> Result<(), NoMemory>
        ensures { OnOk result ((m : settings.Setting) → Adds m self.old (entries.Place label) self.new) }
    {
        self.place_items(label)?;
        self.before = Before::Shut;
        Ok(())
    }

    /// The label behind an item, whose first label it is, where one is placed there.
    pub(crate) fn place_behind(
        &mut self,
        ending: Ending,
        last: bool,
        label: u32,
    ) -> Result<(), NoMemory>
        ensures { OnOk result ((m : settings.Setting) → Emits m self.old (emits.placed ending last label) self.new) }
    {
        match ending {
            Ending::Label if !last => self.place(label),
            _ => Ok(()),
        }
    }

    // The jumps at the end of a loop whose head no jump names.
    #[tactic(auto, using(crate::proofs::Appending::put))]
    fn close_unnamed(&mut self, head: u32, label: u32) -> Result<(), NoMemory>
        ensures puts { OnOk result (Puts self.old.items.items (cuts.close_items false self.old.before head label) self.new.items.items) }
        ensures state { OnOk result (cuts.gone (state_of self.new) ≡ cuts.behind_close false head label (state_of self.old)) }
    {
        match self.before {
            Before::Gone => self.jump(JumpOp::B, head),
            Before::Open | Before::Shut => {
                self.jump(JumpOp::B, label)?;
                self.jump(JumpOp::B, head)
            }
        }
    }

    #[tactic(auto, using(crate::proofs::Appending::put))]
    pub(crate) fn close(&mut self, head: u32, label: u32) -> Result<(), NoMemory>
        ensures { OnOk result ((m : settings.Setting) → Adds m self.old (entries.Close head label) self.new) }
    {
        if self.named.has(head) {
            return Ok(());
        }
        self.close_unnamed(head, label)?;
        self.before = Before::Gone;
        Ok(())
    }

    pub(crate) fn call(
        &mut self,
        alloc: Global,
        setting: &Setting,
        function: u16,
    ) -> Result<(), NoMemory>
        ensures { OnOk result (Adds (setting_of setting.now) self.old (entries.CallTo function) self.new) }
    {
        push_call(alloc, &mut self.items, setting.function_name(function))?;
        self.before = Before::Shut;
        Ok(())
    }

    pub(crate) fn helper(&mut self, alloc: Global, name: HelperName) -> Result<(), NoMemory>
        ensures { OnOk result ((m : settings.Setting) → Adds m self.old (entries.CallHelper name) self.new) }
    {
        push_call(alloc, &mut self.items, helper_name(name))?;
        self.before = Before::Shut;
        Ok(())
    }

    // Of some words.
    fn wipe_some(&mut self, first: u16, count: u16, label: u32) -> Result<(), NoMemory>
        ensures puts { OnOk result (Puts self.old.items.items (cuts.wipe_items first count label) self.new.items.items) }
        ensures state { OnOk result (state_of self.new ≡ cuts.shut (naming label (state_of self.old))) }
    {
        push_wipe(&mut self.items, first, count, label)?;
        self.named.add(label)?;
        self.before = Before::Shut;
        Ok(())
    }

    pub(crate) fn wipe(
        &mut self,
        setting: &Setting,
        object: VarRef,
        from: u16,
        label: u32,
    ) -> Result<(), NoMemory>
        ensures { OnOk result (Adds (setting_of setting.now) self.old (entries.Wipe object from label) self.new) }
    {
        let cells = setting.cells(object, from);
        if cells.count == 0 {
            self.place(label)
        } else {
            self.wipe_some(cells.first, cells.count, label)
        }
    }

    pub(crate) fn give_back(&mut self, setting: &Setting) -> Result<(), NoMemory>
        ensures { OnOk result (Adds (setting_of setting.now) self.old entries.Ret self.new) }
    {
        push_return(&mut self.items, setting.back)?;
        self.before = Before::Gone;
        Ok(())
    }

    /// The end of a body.
    #[tactic(auto, using(crate::proofs::Appending::put))]
    pub(crate) fn finish(&mut self, setting: &Setting, label: u32) -> Result<(), NoMemory>
        ensures { OnOk result (Puts self.old.items.items (cuts.finish_items (setting_of setting.now) ((state_of self.old).named label) self.old.before label) self.new.items.items) }
    {
        if self.named.has(label) {
            push_mark(&mut self.items, label)?;
            return push_return(&mut self.items, setting.back);
        }
        match self.before {
            Before::Gone => Ok(()),
            Before::Open | Before::Shut => push_return(&mut self.items, setting.back),
        }
    }

    /// A jump, unless its label is placed next.
    pub(crate) fn goto_unless_next(&mut self, label: u32, next: u32) -> Result<(), NoMemory>
        ensures { OnOk result ((m : settings.Setting) → Emits m self.old (flow.goto label next) self.new) }
    {
        if label == next {
            return Ok(());
        }
        self.goto(label)
    }

    /// Jumps to one of two labels.
    pub(crate) fn choose(
        &mut self,
        test: Test,
        one: u32,
        other: u32,
        next: u32,
    ) -> Result<(), NoMemory>
        ensures { OnOk result ((m : settings.Setting) → Emits m self.old (emits.jumps test one other next) self.new) }
    {
        if one == next {
            return self.branch(opposite(test), other);
        }
        self.branch(test, one)?;
        self.goto_unless_next(other, next)
    }
}
