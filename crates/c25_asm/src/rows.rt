//! The rows of the instruction table, by their mnemonics.
ghost use Rattle.std.specs.Prelude.{◌≡◌};
ghost use Rattle.std.specs.List.{find};
ghost use Rattle.c25_asm.specs.Statements as statements;

use crate::cuts::{before_colon, cut_head, statement};
use c25_isa::{Form, JumpOp, Mnemonic};

/// All rows.
const ROWS: [Mnemonic; 61] = [
    Mnemonic::Add,
    Mnemonic::Sub,
    Mnemonic::Lac,
    Mnemonic::Lar,
    Mnemonic::Mpy,
    Mnemonic::Lt,
    Mnemonic::Zals,
    Mnemonic::Lact,
    Mnemonic::Subs,
    Mnemonic::Subc,
    Mnemonic::Adds,
    Mnemonic::Rpt,
    Mnemonic::Xor,
    Mnemonic::Or,
    Mnemonic::And,
    Mnemonic::Pshd,
    Mnemonic::Mar,
    Mnemonic::Sacl,
    Mnemonic::Sach,
    Mnemonic::Sar,
    Mnemonic::Popd,
    Mnemonic::Adrk,
    Mnemonic::Sbrk,
    Mnemonic::In,
    Mnemonic::Mpyk,
    Mnemonic::Lark,
    Mnemonic::Ldpk,
    Mnemonic::Lack,
    Mnemonic::Rptk,
    Mnemonic::Addk,
    Mnemonic::Subk,
    Mnemonic::Dint,
    Mnemonic::Rovm,
    Mnemonic::Rsxm,
    Mnemonic::Ssxm,
    Mnemonic::Spm,
    Mnemonic::Pac,
    Mnemonic::Apac,
    Mnemonic::Spac,
    Mnemonic::Sfl,
    Mnemonic::Sfr,
    Mnemonic::Idle,
    Mnemonic::Neg,
    Mnemonic::Ret,
    Mnemonic::Cmpl,
    Mnemonic::Lrlk,
    Mnemonic::Lalk,
    Mnemonic::Adlk,
    Mnemonic::Sblk,
    Mnemonic::Andk,
    Mnemonic::Ork,
    Mnemonic::Xork,
    Mnemonic::Out,
    Mnemonic::Branch(JumpOp::B),
    Mnemonic::Branch(JumpOp::Bgz),
    Mnemonic::Branch(JumpOp::Blez),
    Mnemonic::Branch(JumpOp::Blz),
    Mnemonic::Branch(JumpOp::Bgez),
    Mnemonic::Branch(JumpOp::Bnz),
    Mnemonic::Branch(JumpOp::Bz),
    Mnemonic::Call,
];

// Whether a text is the mnemonic of a row, in either case.
fn spells(text: &[u8], row: Mnemonic) -> bool
    ensures { result ≡ statements.spells text.now row }
{
    text.eq_ignore_ascii_case(row.row().name.as_bytes())
}

// The first of some rows whose mnemonic a text is.
fn find_row(text: &[u8], rows: &[Mnemonic]) -> Option<Mnemonic>
    ensures { result ≡ find (statements.spells text.now) rows.now }
{
    for row in rows {
        if spells(text, *row) {
            return Some(*row);
        }
    }
    None
}

/// The row whose mnemonic a text is, in either case.
pub(crate) fn mnemonic_of(text: &[u8]) -> Option<Mnemonic>
    ensures { result ≡ statements.mnemonic_of text.now }
{
    find_row(text, &ROWS)
}

/// Whether a word of a statement says that the word of the line is a number.
pub(crate) fn is_data(head: &[u8]) -> bool
    ensures { result ≡ statements.is_data head.now }
{
    head == b".word".as_slice()
}

// How many words a row has.
fn form_size(form: Form) -> u16
    ensures { result ≡ statements.form_size form }
{
    match form {
        Form::Word | Form::ShiftedWord | Form::RegisterWord | Form::Target => 2,
        _ => 1,
    }
}

// How many words a line has that begins with this word and has no label.
fn head_size(head: &[u8]) -> u16
    ensures { result ≡ statements.head_size head.now }
{
    if is_data(head) {
        return 1;
    }
    match mnemonic_of(head) {
        None => 0,
        Some(row) => form_size(row.row().form),
    }
}

/// How many words a line has, where it has no fault.
pub(crate) fn size_of(line: &[u8]) -> u16
    ensures { result ≡ statements.size_of line.now }
{
    let text = statement(line);
    match before_colon(text) {
        Some(_) => 0,
        None => {
            let (head, _) = cut_head(text);
            head_size(head)
        }
    }
}
