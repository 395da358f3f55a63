//! What answers HTTP requests.
ghost use Rattle.std.specs.Prelude.{◌≡◌, ℕ, List, Option, None};
ghost use Rattle.http.specs.declared.request.Request.{Request};
ghost use Rattle.http_server.specs.declared.response.Response.{Response};

use http_server::Service;

/// Answers HTTP requests, and upgrades to a WebSocket.
pub trait WebDesk: Service {
    // The digest of the key that the last upgrade's request showed, until it is told.
    ghost shown: { Self → Option (List ℕ) };

    // What stays as it was, whatever is asked, from the first desk to the second.
    ghost keeps: { Self → Self → Type 0 };

    /// The digest of the key that the last upgrade's request showed. It is told once.
    fn take_key(&mut self) -> Option<[u8; 32]>
        ensures told { result ≡ shown self.old }
        ensures once { shown self.new ≡ None }
        ensures kept { keeps self.old self.new };

    ghost keeps_itself: { (desk : Self) → keeps desk desk };

    ghost keeps_on: { (first next last : Self) → keeps first next → keeps next last → keeps first last };

    ghost answers_keep: { (old new : Self) (request : Request (List ℕ)) (response : Response) → Self.answers old request response new → keeps old new };
}
