//! Data blocks made from a category file and a seed; category files and expansion files for tests and for trying the program
//! out, which the folder `samples` has too; and a reader of octets written in hexadecimal.
#![tactic(auto)]

mod bit_string;
mod blocks;
mod draws;
mod field;
mod fixed;
mod hexadecimal;
mod kinds;
mod samples;
mod test_files;

pub use blocks::make_block;
pub use draws::Draws;
pub use hexadecimal::octets;
pub use samples::{CAT019_P1, CAT034_P1, CAT048_P1, CAT048_P2};
pub use test_files::{
    FILE_A, FILE_E, FILE_F, FILE_G1, FILE_G2, FILE_H1, FILE_H2, FILE_H3, FILE_K, FILE_N, FILE_S,
    FILE_W, FILE_X, FILE_X2, FILE_Y1, FILE_Y2, FILE_Y3, FILE_Y4, FILE_Z, NESTED_TOO_DEEP,
};
