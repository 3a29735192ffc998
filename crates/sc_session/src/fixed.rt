//! The bodies of the answers that take no memory and that the request alone gives.
#![tactic(auto, unfolding(crate::proofs::TextLemmas::texts_on_literals))]

ghost use Rattle.std.specs.Prelude.{◌≡◌};
ghost use Rattle.sc_reply.specs.Refusals as refusals;
ghost use Rattle.sc_session.specs.Answers.{refusal_reply};

/// The body of a refusal with 400: the head, how it states a body's length, or a body in chunks can't be read.
pub(crate) fn bad_head_body() -> &'static str
    ensures { result.now ≡ (refusal_reply refusals.bad_head).body }
{
    r#"{"error":{"code":400,"msg":"bad request"},"responseHeader":{"QTime":0,"status":400}}"#
}

/// The body of a refusal with 500: what the request made could not be kept.
pub(crate) fn log_failed_body() -> &'static str
    ensures { result.now ≡ (refusal_reply refusals.log_failed).body }
{
    r#"{"error":{"code":500,"msg":"update log failed"},"responseHeader":{"QTime":0,"status":500}}"#
}

/// The body of a refusal with 413: a head or a body is too large.
pub(crate) fn too_large_body() -> &'static str
    ensures { result.now ≡ (refusal_reply refusals.too_large).body }
{
    r#"{"error":{"code":413,"msg":"request is too large"},"responseHeader":{"QTime":0,"status":413}}"#
}
