// The tokens of a `new`.
ghost use Rattle.equation_law.specs.Systems.{program_of};
ghost use Rattle.expr_eval.specs.Evaluating.{KnowsContext};
ghost use Rattle.expr_eval.specs.Reads.{IsReady, TokensReadIn, state};

use crate::evaluation::{Context, Halt, argument_code, meaning};
use crate::saved::Saved;
use attr_rules::NewArgs;
use equation_law::{Reader, Tokens};

/// Puts the codes of the tokens of a `new` behind others. They are evaluated in the order in which they are written: those of a child where the
/// child stands.
#[cycle(tokens)]
pub(crate) fn put_tokens<'a, R: Reader>(
    context: &Context<'_>,
    parts: &'a NewArgs,
    reader: &mut R,
    saved: &mut Saved<'a>,
    tokens: &mut Tokens,
) -> Result<(), Halt>
    requires ready { IsReady (program_of context.now.system.now) (state context.now.system.now (R.tells reader.old) saved.old) }
    requires known { KnowsContext (R.tells reader.old) context.now }
    ensures { TokensReadIn context.now (R.tells reader.old) saved.old (R.tells reader.new) saved.new parts.now tokens.old tokens.new result }
{
    match parts {
        NewArgs::End => Ok(()),
        NewArgs::Token(kind, expression, rest) => {
            let mut came = Err(Halt::Memory);
            meaning(context, expression, reader, saved, &mut came);
            let value = came?;
            tokens.push(argument_code(context.system, *kind, value))?;
            put_tokens(context, rest, reader, saved, tokens)
        }
        NewArgs::Child(_, below, rest) => {
            put_tokens(context, below, reader, saved, tokens)?;
            put_tokens(context, rest, reader, saved, tokens)
        }
    }
}
