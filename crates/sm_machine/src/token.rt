//! Tokens of streams.
ghost use Rattle.std.specs.Prelude.{◌≡◌};

use sm_reservation::StreamId;
use std::marker::Model;

/// The right to make the steps of a stream. It can be neither copied nor dropped.
pub struct StreamToken {
    id: StreamId,
}

impl Model for StreamToken {
    ghost use Rattle.sm_reservation.specs.declared.stream_id.StreamId.{StreamId};

    ghost Value = { StreamId };

    ghost view = { λ token. token.id };
}

impl StreamToken {
    /// Makes the token of a stream.
    pub(crate) fn new(id: StreamId) -> StreamToken
        ensures { result ≡ id }
    {
        StreamToken { id }
    }

    /// Returns the stream that it is for.
    pub fn id(&self) -> StreamId
        ensures { result ≡ self.now }
    {
        self.id
    }

    /// Spends the token, and returns the stream that it was for.
    pub(crate) fn into_id(self) -> StreamId
        ensures { result ≡ self }
    {
        let StreamToken { id } = self;
        id
    }
}

/// Ends tokens with their machine. Takes no memory.
pub(crate) fn close_tokens(mut tokens: Vec<StreamToken>) {
    while let Some(token) = tokens.pop() {
        let _ = token.into_id();
    }
    tokens.destroy_empty();
}
