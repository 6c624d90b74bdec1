// Languages of tokens.

use ll_parser::Table;
use rag_io::Token;

/// A language of tokens: the class of each token, and an LL(1) grammar over these classes with the table that its sentences are read by. A
/// value says which nonterminal the tokens are to be, where the grammar has several such.
pub trait Language {
    ghost use Rattle.std.specs.Prelude.{◌≡◌, ℕ, List};
    ghost use Rattle.ll_parser.specs.Grammar.{Production};
    ghost use Rattle.ll_parser.specs.Stack.{Works, choice_of, rows_of};
    ghost use Rattle.ll_parser.specs.Table.{Claims};
    ghost use Rattle.rag_io.specs.Tokens.{Lexed, seen_token};
    ghost use Rattle.rag_io.specs.declared.token.TokenKind.TheVariants.{End};

    ghost class: { Self → Lexed → ℕ };

    ghost start: { Self → ℕ };

    ghost grammar: { List Production };

    ghost choice: { ℕ → ℕ → ℕ };

    ghost claims: { Claims };

    /// The class of a token, in the numbers of the grammar.
    fn class_of(&self, token: &Token<'_>) -> u8
        ensures { result ≡ class self.now (seen_token token.now) };

    /// The nonterminal that the tokens are to be.
    fn start(&self) -> u8
        ensures { result ≡ start self.now };

    /// The table of the grammar.
    fn table() -> Table<'static>
        ensures rows { rows_of result ≡ grammar }
        ensures choice { choice_of result.choice.now ≡ choice };

    // The end of a file has the class 0.
    ghost ends: { (language : Self) (t : Lexed) → t.kind ≡ End → class language t ≡ 0 };

    // The table fits the grammar.
    ghost works: { (language : Self) → Works grammar (start language) choice claims };
}
