//! Which words of the trace an answer may use.
ghost use Rattle.std.specs.Prelude.{◌≡◌, true, IfSome, IsNone};
ghost use Rattle.trace.specs.Text.{word_of};
ghost use Rattle.trace.specs.declared.row.What.{What as AnyWhat};
ghost use Rattle.drive_answers.specs.Kinds.{is_message, is_told, is_about_a_member};

use trace::What;

/// The message of this word.
pub(crate) fn message_named(word: &str) -> Option<What>
    ensures some { IfSome result (λ what. (word_of what ≡ word.now) × (is_message what ≡ true)) }
    ensures none { IsNone result → (what : AnyWhat) → is_message what ≡ true → ¬ (word_of what ≡ word.now) }
{
    match word {
        "join" => Some(What::Join),
        "welcome" => Some(What::Welcome),
        "ping" => Some(What::Ping),
        "ping-req" => Some(What::PingReq),
        "ack" => Some(What::Ack),
        "nack" => Some(What::Nack),
        "bye" => Some(What::Bye),
        "gossip" => Some(What::Gossip),
        "call" => Some(What::Call),
        "answer" => Some(What::Answer),
        "push" => Some(What::Push),
        "pull" => Some(What::Pull),
        "reconnect" => Some(What::Reconnect),
        _ => None,
    }
}

/// The row of this word, of those that an answer may write.
pub(crate) fn row_named(word: &str) -> Option<What>
    ensures some { IfSome result (λ what. (word_of what ≡ word.now) × (is_told what ≡ true)) }
    ensures none { IsNone result → (what : AnyWhat) → is_told what ≡ true → ¬ (word_of what ≡ word.now) }
{
    match word {
        "joined" => Some(What::Joined),
        "fail" => Some(What::Fail),
        "health" => Some(What::Health),
        "alive" => Some(What::Alive),
        "suspect" => Some(What::Suspect),
        "confirm" => Some(What::Confirm),
        "accuse" => Some(What::Accuse),
        "refute" => Some(What::Refute),
        "dead" => Some(What::Dead),
        "left" => Some(What::Left),
        "forget" => Some(What::Forget),
        _ => None,
    }
}

/// Whether such a row is about a member: all but that of the member's own health.
pub(crate) fn is_about_a_member(what: What) -> bool
    ensures { result ≡ is_about_a_member what }
{
    !matches!(what, What::Health)
}
