// The library for C, with the header `include/traymark.h`. Each export calls the function of its name in `traymark`, where what
// it does and returns is told, and ensures what that ensures. A slice is a pointer and a length to C. No call asks anything of
// its arguments: any bytes of any length get an answer.
#![tactic(auto)]

pub mod explain;
pub mod mask;
pub mod measure;
pub mod photographs;
pub mod plans;
pub mod read;
pub mod seasons;
pub mod write;
