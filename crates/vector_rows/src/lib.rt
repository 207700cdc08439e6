// Rows of stored answers, and how a program replays them. A row has 53 bytes, the letter of its kind
// and three numbers of 16 upper-case hexadecimal digits, two inputs and the answer:
//
//     K AAAAAAAAAAAAAAAA BBBBBBBBBBBBBBBB RRRRRRRRRRRRRRRR
#![tactic(auto)]

pub mod numbers;
pub mod rows;
