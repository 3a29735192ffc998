ghost use Rattle.std.specs.Prelude.{◌≡◌, IsSome, IfOk};
ghost use Rattle.sc_model.specs.Replies as replies;
ghost use Rattle.sc_reply.specs.Bodies.{error_text};
ghost use Rattle.sc_reply.specs.Refusals.{refusal_status, message_of};
ghost use Rattle.sc_reply.specs.Causes.{refusal_of};

use sc_record::{Ack, List, Text};
use sc_reply::{Cause, error_body};
use std::alloc::{AllocError, Global};

/// A body, which is fixed or was made for its reply.
#[derive(Debug, Drop)]
pub(crate) enum Body {
    Fixed(&'static str),
    Made(Text),
}

impl Body {
    ghost use Rattle.sc_session.specs.Answering.{body_bytes};

    pub(crate) fn as_str(&self) -> &str
        ensures { result.now ≡ body_bytes self.now }
    {
        match self {
            Body::Fixed(text) => text,
            Body::Made(text) => text.as_str(),
        }
    }
}

/// The answer to a request: a status, and a body.
#[derive(Debug, Drop)]
pub(crate) struct Reply {
    pub status: u16,
    pub body: Body,
}

impl Reply {
    ghost use Rattle.sc_session.specs.Answers.{refusal_reply};
    ghost use Rattle.sc_session.specs.Answering.{reply_of};

    /// A reply with a fixed body.
    pub(crate) fn fixed(status: u16, body: &'static str) -> Reply
        ensures { reply_of result ≡ record { status = status; body = body.now } }
    {
        Reply {
            status,
            body: Body::Fixed(body),
        }
    }

    /// A reply with a body that was made.
    pub(crate) fn made(status: u16, body: Text) -> Reply
        ensures { reply_of result ≡ record { status = status; body = body } }
    {
        Reply {
            status,
            body: Body::Made(body),
        }
    }

    /// A refusal by the request alone, or of a command. An error means out of memory.
    pub(crate) fn refusal(alloc: Global, cause: &Cause<'_>) -> Result<Reply, AllocError>
        ensures reply { IfOk result (λ reply. reply_of reply ≡ refusal_reply (refusal_of cause.now)) }
        ensures status { IfOk result (λ reply. IsSome (replies.reason_of reply.status)) }
    {
        let none = List::new(alloc);
        Reply::refused(alloc, cause, &none, &none, false)
    }

    /// A refusal, after these orders were accepted. An error means out of memory.
    pub(crate) fn refused(
        alloc: Global,
        cause: &Cause<'_>,
        adds: &List<Ack>,
        deletes: &List<Ack>,
        versions: bool,
    ) -> Result<Reply, AllocError>
        ensures reply { let refusal = refusal_of cause.now in
            IfOk result (λ reply. reply_of reply ≡ record { status = refusal_status refusal; body = error_text (refusal_status refusal) (message_of refusal) adds.now deletes.now versions }) }
        ensures status { IfOk result (λ reply. IsSome (replies.reason_of reply.status)) }
    {
        let status = cause.status();
        let message = cause.message(alloc)?;
        let body = error_body(alloc, status, message.as_str(), adds, deletes, versions)?;
        Ok(Reply::made(status, body))
    }
}
