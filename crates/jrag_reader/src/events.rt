// The events of a sentence: a token was read, or an action of the grammar.

pub(crate) const TOKEN: u8 = 255;

pub(crate) const BEGIN: u8 = 1;

pub(crate) const END: u8 = 2;

pub(crate) const NAME: u8 = 3;

pub(crate) const LITERAL: u8 = 4;

pub(crate) const TEXT: u8 = 5;

pub(crate) const SOURCE: u8 = 6;

pub(crate) const NO_ARGUMENTS: u8 = 7;

pub(crate) const FIRST_ARGUMENT: u8 = 8;

pub(crate) const ARGUMENT: u8 = 9;

pub(crate) const CALL: u8 = 10;

pub(crate) const MEMBER: u8 = 11;

pub(crate) const NEW: u8 = 12;

pub(crate) const QUANTIFIED: u8 = 13;

pub(crate) const GROUP: u8 = 14;

pub(crate) const CAST: u8 = 15;

pub(crate) const NOT: u8 = 16;

pub(crate) const NEGATE: u8 = 17;

pub(crate) const PRODUCT: u8 = 18;

pub(crate) const SUM: u8 = 19;

pub(crate) const COMPARE: u8 = 20;

pub(crate) const INSTANCE: u8 = 21;

pub(crate) const EQUATE: u8 = 22;

pub(crate) const AND: u8 = 23;

pub(crate) const OR: u8 = 24;

pub(crate) const CHOOSE: u8 = 25;

pub(crate) const NO_ITEMS: u8 = 26;

pub(crate) const OPEN: u8 = 27;

pub(crate) const ITEM: u8 = 28;

pub(crate) const CLOSE: u8 = 29;

pub(crate) const SYNTHESIZED: u8 = 30;

pub(crate) const INHERITED: u8 = 31;

pub(crate) const EQUATION: u8 = 32;

pub(crate) const COLLECTION: u8 = 33;

pub(crate) const CONTRIBUTION: u8 = 34;

pub(crate) const PRESENT: u8 = 35;

pub(crate) const ABSENT: u8 = 36;

pub(crate) const NO_MODIFIERS: u8 = 37;

pub(crate) const LAZY_FIRST: u8 = 38;

pub(crate) const HIGHER_ORDER_FIRST: u8 = 39;

pub(crate) const TYPE: u8 = 40;

pub(crate) const SET: u8 = 41;

pub(crate) const NO_PARAMETERS: u8 = 42;

pub(crate) const FIRST_PARAMETER: u8 = 43;

pub(crate) const PARAMETER: u8 = 44;

pub(crate) const CIRCULAR: u8 = 45;

pub(crate) const NOT_CIRCULAR: u8 = 46;

pub(crate) const BODY: u8 = 47;

pub(crate) const NO_BODY: u8 = 48;

pub(crate) const PATH: u8 = 49;

pub(crate) const NO_PATH: u8 = 50;

pub(crate) const METHOD: u8 = 51;

pub(crate) const NO_METHOD: u8 = 52;

pub(crate) const ROOT: u8 = 53;

pub(crate) const NO_ROOT: u8 = 54;

pub(crate) const CONDITION: u8 = 55;

pub(crate) const NO_CONDITION: u8 = 56;
