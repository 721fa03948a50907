// Marks on fruit trays: the calls of documents 01 and 02, for Rattle. C has those whose names begin with `traymark_`, each by the
// export of the same name in `traymark_c`. No call asks anything of its arguments: any bytes of any length get an answer, and the
// refusals 1 to 18 are those of the table "What is returned", in its order: 13 stands between 3 and 4, 17 and 18 between 6 and 7.
#![tactic(auto)]

pub mod explain;
pub mod mask;
pub mod measure;
pub mod photographs;
pub mod plans;
pub mod read;
pub mod seasons;
pub mod write;
