// The classes of some tokens, in the numbers of the grammar.

pub(crate) const INT: u8 = 2;

pub(crate) const THIS: u8 = 15;

pub(crate) const TRUE: u8 = 16;

pub(crate) const FALSE: u8 = 17;

pub(crate) const NULL: u8 = 18;

pub(crate) const EMPTY: u8 = 19;

/// The word `boolean`.
pub(crate) const BOOLEAN_TYPE: u8 = 22;

/// The word `int`.
pub(crate) const INT_TYPE: u8 = 23;

/// The word `String`.
pub(crate) const STRING_TYPE: u8 = 24;

pub(crate) const EACH: u8 = 29;

pub(crate) const ANY: u8 = 30;

pub(crate) const ALL: u8 = 31;

pub(crate) const FIRST: u8 = 32;

/// `||`
pub(crate) const OR: u8 = 45;

/// `&&`
pub(crate) const AND: u8 = 46;

/// `==`
pub(crate) const EQUAL: u8 = 47;

/// `!=`
pub(crate) const DIFFER: u8 = 48;

/// `<`
pub(crate) const LESS: u8 = 49;

/// `<=`
pub(crate) const AT_MOST: u8 = 50;

/// `>`
pub(crate) const GREATER: u8 = 51;

/// `>=`
pub(crate) const AT_LEAST: u8 = 52;

/// `+`
pub(crate) const ADD: u8 = 53;

/// `-`
pub(crate) const SUBTRACT: u8 = 54;

/// `*`
pub(crate) const MULTIPLY: u8 = 55;
