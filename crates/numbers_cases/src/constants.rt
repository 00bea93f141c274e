// The registers that the crate numbers names, against their numbers in the calling convention: the check proves
// each of them.
use numbers::registers::Register;

pub fn constants() {
    prove!(Register::ZERO.0 == 0);
    prove!(Register::SP.0 == 2);
    prove!(Register::T0.0 == 5);
    prove!(Register::A0.0 == 10);
    prove!(Register::A1.0 == 11);
    prove!(Register::A2.0 == 12);
    prove!(Register::A7.0 == 17);
}
