// The table of the grammar `query`, written by tools/table.py. A proof shows that it fits.
use ll_parser::Symbol;
use ll_parser::Symbol::{Action, Terminal};

pub const QUERY_OF: [u8; 1] = [0];

pub const QUERY_STARTS: [u16; 2] = [0, 8];

pub const QUERY_BODIES: [Symbol; 8] = [
    Terminal(6), // 0. query: ')'
    Terminal(5), // 0. query: '('
    Action(2), // 0. query: @name
    Terminal(1), // 0. query: Name
    Terminal(4), // 0. query: '.'
    Action(1), // 0. query: @node
    Terminal(2), // 0. query: Int
    Terminal(3), // 0. query: '@'
];

pub const QUERY_CHOICE: [u8; 64] = [
    255, 255, 255, 0, 255, 255, 255, 255, 255, 255, 255, 255, 255, 255, 255, 255, 255, 255, 255,
    255, 255, 255, 255, 255, 255, 255, 255, 255, 255, 255, 255, 255, 255, 255, 255, 255, 255, 255,
    255, 255, 255, 255, 255, 255, 255, 255, 255, 255, 255, 255, 255, 255, 255, 255, 255, 255, 255,
    255, 255, 255, 255, 255, 255, 255,
];
