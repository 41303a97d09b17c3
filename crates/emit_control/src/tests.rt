//! The jumps of tests.
ghost use Rattle.std.specs.Prelude.{◌≡◌};
ghost use Rattle.emit_control.specs.Cuts as cuts;
ghost use Rattle.emit_control.specs.Flow as flow;

use acc_code::Test;
use c25_isa::JumpOp;

/// The jump that is taken where a test holds.
pub(crate) fn jump_on(test: Test) -> JumpOp
    ensures { result ≡ cuts.jump_on test }
{
    match test {
        Test::Gz => JumpOp::Bgz,
        Test::Lez => JumpOp::Blez,
        Test::Lz => JumpOp::Blz,
        Test::Gez => JumpOp::Bgez,
        Test::Nz => JumpOp::Bnz,
        Test::Z => JumpOp::Bz,
    }
}

/// The test that holds where another one doesn't.
pub(crate) fn opposite(test: Test) -> Test
    ensures { result ≡ flow.opposite test }
{
    match test {
        Test::Gz => Test::Lez,
        Test::Lez => Test::Gz,
        Test::Lz => Test::Gez,
        Test::Gez => Test::Lz,
        Test::Nz => Test::Z,
        Test::Z => Test::Nz,
    }
}
