//! The bodies of answers that take no memory.
#![tactic(auto, unfolding(crate::proofs::TextLemmas::texts_on_literals))]

ghost use Rattle.std.specs.Prelude.{◌≡◌, false, [], None};
ghost use Rattle.sc_reply.specs.Bodies.{update_text, error_text, get_text};
ghost use Rattle.sc_reply.specs.Refusals.{message_of, refusal_status, memory};

/// The body of the answer to an update that was done and shows no versions.
pub fn ok_body() -> &'static str
    ensures { result.now ≡ update_text [] [] false }
{
    r#"{"responseHeader":{"QTime":0,"status":0}}"#
}

/// The body of the refusal where memory ran out.
pub fn memory_body() -> &'static str
    ensures { result.now
        ≡ error_text (refusal_status memory) (message_of memory) [] [] false }
{
    r#"{"error":{"code":503,"msg":"out of memory"},"responseHeader":{"QTime":0,"status":503}}"#
}

/// The body of the answer to a get of an id that has no document.
pub(crate) fn null_body() -> &'static str
    ensures { result.now ≡ get_text None }
{
    r#"{"doc":null}"#
}
