ghost use Rattle.std.specs.Prelude.{◌≡◌};
ghost use Rattle.sc_model.specs.Heads.{head_limit, line_limit, body_limit};
ghost use Rattle.sc_model.specs.Replies.{one_write_limit};
ghost use Rattle.sc_http.specs.declared.head.TheConstants.{MAX_HEAD, MAX_LINES};
ghost use Rattle.sc_http.specs.declared.framing.TheConstants.{MAX_BODY};
ghost use Rattle.sc_http.specs.declared.reply.TheConstants.{ONE_WRITE};
ghost use Rattle.sc_http.specs.Laws.{NoEndingOfRequest, OneEnding, OneReading};

/// Bytes begin with at most one request, and no request is a proper prefix of another.
pub fn no_request_is_a_prefix()
    ensures { OneReading }
{}

/// Bytes that begin with a request have no ending.
pub fn no_ending_of_a_request()
    ensures { NoEndingOfRequest }
{}

/// Bytes have at most one ending, but where they end inside a target that can't become UTF-8.
pub fn bytes_end_in_one_way()
    ensures { OneEnding }
{}

/// The limits that a user meets are the numbers of the definitions.
pub fn limits_are_as_defined()
    ensures head { MAX_HEAD ≡ head_limit }
    ensures lines { MAX_LINES ≡ line_limit }
    ensures body { MAX_BODY ≡ body_limit }
    ensures one_write { ONE_WRITE ≡ one_write_limit }
{}
