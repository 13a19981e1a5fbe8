//! Laws of lines. A function here does nothing: its contract is the law.

ghost use Rattle.std.specs.Prelude.{◌≡◌, ℕ, List};
ghost use Rattle.journal_model.specs.declared.answer.Answer.{Answer};
ghost use Rattle.reply_lines.specs.Line.{IsReplyLine};

/// A line is that of one reply only. So `read_reply` answers the reply that was printed, where its
/// fields are as they may be.
pub fn lines_have_one_reply()
    ensures { (line : List ℕ) (a b : Answer) → IsReplyLine line a → IsReplyLine line b → a ≡ b }
{}
