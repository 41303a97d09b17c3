//! Which registers and operands a walk looks at.
ghost use Rattle.std.specs.Prelude.{◌≡◌, IfSome};
ghost use Rattle.c25_isa.specs.Table.{IsIndirect, IsInstr};
ghost use Rattle.c25_isa.specs.Walk as spec;
ghost use Rattle.c25_isa.specs.AddressCount as counts;

use c25_isa::{Change, Indirect, Instr, Operand};

// AR2 to AR5, which go over the scalars of a frame.
pub(crate) fn goes_over_scalars(register: u8) -> bool
    ensures { result ≡ spec.goes_over_scalars register }
{
    2 <= register && register <= 5
}

// AR2 to AR5, and AR0, by which they are changed.
pub(crate) fn is_counted_register(register: u8) -> bool
    ensures { result ≡ counts.is_counted_register register }
{
    register == 0 || goes_over_scalars(register)
}

// The indirect operand through which data memory is accessed.
pub(crate) fn access_operand(instr: &Instr) -> Option<Indirect>
    ensures operand { result ≡ spec.access_operand instr.now }
    ensures fits { IsInstr instr.now → IfSome result IsIndirect }
{
    match instr.fields().memory() {
        Some(Operand::Indirect(indirect)) => Some(indirect),
        Some(Operand::Direct(_)) | None => None,
    }
}

// The indirect operand through which nothing is accessed: that of MAR, jumps and CALL.
pub(crate) fn idle_operand(instr: &Instr) -> Option<Indirect>
    ensures operand { result ≡ spec.idle_operand instr.now }
    ensures fits { IsInstr instr.now → IfSome result IsIndirect }
{
    instr.fields().pointer()
}

// Whether MAR, a jump or CALL changes the current register.
pub(crate) fn moves(instr: &Instr) -> bool
    ensures { result ≡ counts.moves (spec.idle_operand instr.now) }
{
    match idle_operand(instr) {
        Some(indirect) => indirect.change != Change::Stay,
        None => false,
    }
}

// The word that a jump names; a call is none.
pub(crate) fn jump_target(instr: &Instr) -> Option<u16>
    ensures { result ≡ spec.jump_target instr.now }
{
    match instr {
        Instr::Branch { to, .. } => Some(*to),
        _ => None,
    }
}

// Whether the word behind need not run next.
pub(crate) fn ends_stretch(instr: &Instr) -> bool
    ensures { result ≡ spec.ends_stretch instr.now }
{
    matches!(
        instr,
        Instr::Branch { .. } | Instr::Call { .. } | Instr::Ret | Instr::Idle
    )
}

// A number behind a change; a change by AR0 is known where AR0 is.
pub(crate) fn number_changed(change: Change, index: Option<u16>, number: Option<u16>) -> Option<u16>
    ensures { result ≡ spec.number_changed change index number }
{
    let number = number?;
    match change {
        Change::Stay => Some(number),
        Change::Down => Some(number.wrapping_sub(1)),
        Change::Up => Some(number.wrapping_add(1)),
        Change::DownIndex => Some(number.wrapping_sub(index?)),
        Change::UpIndex => Some(number.wrapping_add(index?)),
    }
}
