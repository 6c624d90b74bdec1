// The laws of texts in replies, over the definitions alone.
ghost use Rattle.std.specs.Prelude.{◌≡◌, ℕ, List};
ghost use Rattle.equation_law.specs.Values.{Value};
ghost use Rattle.query_lang.specs.Replies.{HasSourceNodes, IsReplyText};

/// A value has one text in a reply at most.
pub fn one_reply_text()
    ensures { (v : Value) (t u : List ℕ) → IsReplyText v t → IsReplyText v u → t ≡ u }
{}

/// Each value whose nodes are source nodes has a text in a reply.
pub fn has_reply_text()
    ensures { (v : Value) → HasSourceNodes v → (t : List ℕ) × IsReplyText v t }
{}
