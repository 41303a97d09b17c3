//! The code of each routine. Left is the word at 0300h and right that at 0301h. The page is the first one of RAM.

use crate::line::Line;
use c25_isa::{Instr, JumpOp, Operand};

// The first page of data memory that holds RAM.
const FIRST_RAM_PAGE: u16 = 6;

const LEFT: Operand = Operand::Direct(0);

const RIGHT: Operand = Operand::Direct(1);

const SCRATCH: Operand = Operand::Direct(2);
// The size of a signed divisor.
const DIVISOR: Operand = Operand::Direct(3);

// The greatest count of a shift.
const GREATEST_COUNT: u8 = 15;

// A division takes a step for each bit of a word, so that often SUBC runs again.
const BITS_BEHIND_THE_FIRST: u8 = 15;

const LOAD_DIVISOR: Instr = Instr::Lac {
    shift: 0,
    operand: DIVISOR,
};

const LOAD_LEFT: Instr = Instr::Lac {
    shift: 0,
    operand: LEFT,
};

const LOAD_RIGHT: Instr = Instr::Lac {
    shift: 0,
    operand: RIGHT,
};

const LOAD_SCRATCH: Instr = Instr::Lac {
    shift: 0,
    operand: SCRATCH,
};

const STORE_DIVISOR: Instr = Instr::Sacl {
    shift: 0,
    operand: DIVISOR,
};

const STORE_HIGH_LEFT: Instr = Instr::Sach {
    shift: 0,
    operand: LEFT,
};

const STORE_HIGH_SCRATCH: Instr = Instr::Sach {
    shift: 0,
    operand: SCRATCH,
};

const STORE_LEFT: Instr = Instr::Sacl {
    shift: 0,
    operand: LEFT,
};

const STORE_SCRATCH: Instr = Instr::Sacl {
    shift: 0,
    operand: SCRATCH,
};

const STORE_SHIFTED: Instr = Instr::Sach {
    shift: 1,
    operand: SCRATCH,
};

const SUBTRACT_RIGHT: Instr = Instr::Sub {
    shift: 0,
    operand: RIGHT,
};

pub const DIV_INT: [Line; 37] = [
    Line::Do(Instr::Ldpk(FIRST_RAM_PAGE)),
    Line::Do(Instr::Ssxm),
    Line::Do(LOAD_LEFT),
    Line::Do(Instr::Xor(RIGHT)),
    Line::Do(STORE_SCRATCH),
    Line::Do(LOAD_RIGHT),
    Line::Jump(JumpOp::Bgez, 1),
    Line::Do(Instr::Neg),
    Line::Mark(1),
    Line::Do(STORE_DIVISOR),
    Line::Do(LOAD_LEFT),
    Line::Jump(JumpOp::Bgez, 2),
    Line::Do(Instr::Neg),
    Line::Mark(2),
    Line::Do(STORE_LEFT),
    Line::Do(LOAD_DIVISOR),
    Line::Jump(JumpOp::Blz, 4),
    Line::Do(Instr::Zals(LEFT)),
    Line::Do(Instr::Rptk(BITS_BEHIND_THE_FIRST)),
    Line::Do(Instr::Subc(DIVISOR)),
    Line::Do(STORE_LEFT),
    Line::Do(LOAD_SCRATCH), // the sign of the quotient
    Line::Jump(JumpOp::Blz, 3),
    Line::Do(LOAD_LEFT),
    Line::Do(Instr::Ret),
    Line::Mark(3),
    Line::Do(LOAD_LEFT),
    Line::Do(Instr::Neg),
    Line::Do(Instr::Ret),
    Line::Mark(4),
    Line::Do(LOAD_LEFT),
    Line::Jump(JumpOp::Blz, 5),
    Line::Do(Instr::Lack(0)),
    Line::Do(Instr::Ret),
    Line::Mark(5),
    Line::Do(Instr::Lack(1)),
    Line::Do(Instr::Ret),
];

pub const DIV_UNSIGNED: [Line; 17] = [
    Line::Do(Instr::Ldpk(FIRST_RAM_PAGE)),
    Line::Do(Instr::Ssxm),
    Line::Do(LOAD_RIGHT),
    Line::Jump(JumpOp::Blz, 1), // the divisor is too great for SUBC
    Line::Do(Instr::Zals(LEFT)),
    Line::Do(Instr::Rptk(BITS_BEHIND_THE_FIRST)),
    Line::Do(Instr::Subc(RIGHT)),
    Line::Do(Instr::Ret),
    Line::Mark(1),
    Line::Do(Instr::Zals(LEFT)),
    Line::Do(Instr::Subs(RIGHT)),
    Line::Jump(JumpOp::Blz, 2),
    Line::Do(Instr::Lack(1)),
    Line::Do(Instr::Ret),
    Line::Mark(2),
    Line::Do(Instr::Lack(0)),
    Line::Do(Instr::Ret),
];

pub const REM_INT: [Line; 35] = [
    Line::Do(Instr::Ldpk(FIRST_RAM_PAGE)),
    Line::Do(Instr::Ssxm),
    Line::Do(LOAD_RIGHT),
    Line::Jump(JumpOp::Bgez, 1),
    Line::Do(Instr::Neg),
    Line::Mark(1),
    Line::Do(STORE_DIVISOR),
    Line::Do(LOAD_LEFT),
    Line::Do(STORE_SCRATCH),
    Line::Jump(JumpOp::Bgez, 2),
    Line::Do(Instr::Neg),
    Line::Mark(2),
    Line::Do(STORE_LEFT),
    Line::Do(LOAD_DIVISOR),
    Line::Jump(JumpOp::Blz, 4),
    Line::Do(Instr::Zals(LEFT)),
    Line::Do(Instr::Rptk(BITS_BEHIND_THE_FIRST)),
    Line::Do(Instr::Subc(DIVISOR)),
    Line::Do(STORE_HIGH_LEFT),
    Line::Do(LOAD_SCRATCH), // the sign of the remainder
    Line::Jump(JumpOp::Blz, 3),
    Line::Do(LOAD_LEFT),
    Line::Do(Instr::Ret),
    Line::Mark(3),
    Line::Do(LOAD_LEFT),
    Line::Do(Instr::Neg),
    Line::Do(Instr::Ret),
    Line::Mark(4),
    Line::Do(LOAD_LEFT),
    Line::Jump(JumpOp::Blz, 5),
    Line::Do(LOAD_SCRATCH),
    Line::Do(Instr::Ret),
    Line::Mark(5),
    Line::Do(Instr::Lack(0)),
    Line::Do(Instr::Ret),
];

pub const REM_UNSIGNED: [Line; 17] = [
    Line::Do(Instr::Ldpk(FIRST_RAM_PAGE)),
    Line::Do(Instr::Ssxm),
    Line::Do(LOAD_RIGHT),
    Line::Jump(JumpOp::Blz, 1),
    Line::Do(Instr::Zals(LEFT)),
    Line::Do(Instr::Rptk(BITS_BEHIND_THE_FIRST)),
    Line::Do(Instr::Subc(RIGHT)),
    Line::Do(STORE_HIGH_SCRATCH),
    Line::Do(LOAD_SCRATCH),
    Line::Do(Instr::Ret),
    Line::Mark(1),
    Line::Do(Instr::Zals(LEFT)),
    Line::Do(Instr::Subs(RIGHT)),
    Line::Jump(JumpOp::Bgez, 2),
    Line::Do(LOAD_LEFT),
    Line::Mark(2),
    Line::Do(Instr::Ret),
];

pub const SHR_INT: [Line; 10] = [
    Line::Do(Instr::Ldpk(FIRST_RAM_PAGE)),
    Line::Do(Instr::Ssxm),
    Line::Do(Instr::Lack(GREATEST_COUNT)),
    Line::Do(SUBTRACT_RIGHT),
    Line::Do(STORE_SCRATCH),
    Line::Do(Instr::Lt(SCRATCH)),
    Line::Do(Instr::Lact(LEFT)),
    Line::Do(STORE_SHIFTED),
    Line::Do(LOAD_SCRATCH),
    Line::Do(Instr::Ret),
];

pub const SHR_UNSIGNED: [Line; 10] = [
    Line::Do(Instr::Ldpk(FIRST_RAM_PAGE)),
    Line::Do(Instr::Rsxm),
    Line::Do(Instr::Lack(GREATEST_COUNT)),
    Line::Do(SUBTRACT_RIGHT),
    Line::Do(STORE_SCRATCH),
    Line::Do(Instr::Lt(SCRATCH)),
    Line::Do(Instr::Lact(LEFT)),
    Line::Do(STORE_SHIFTED),
    Line::Do(LOAD_SCRATCH),
    Line::Do(Instr::Ret),
];
