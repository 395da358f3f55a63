//! Laws of what is asked and replied.
ghost use Rattle.law_asked.specs.Asked.{AcceptedAreFew, RepliesAreMessages, RequestsAreMessages};
ghost use Rattle.law_asked.specs.Asked.{ServedAcceptedAreFew, ServedRepliesFit, ServedRequestsFit};

use law_system::replicas_equal_serial_execution;
use sv_journal::{
    counts_have_an_end, served_actions_are_good, served_relays_are_small,
    served_relays_name_accepted, served_replies_are_messages,
};

/// Each request that an honest client asks in a session is a message: it is within the grammar, and its numbers are those of their types.
///
/// The client's trace is one of those that fit a legal journal, of rules within the limits. What the run is given has numbers of their
/// types. So have then the results that clients report, since an evaluation stays within 64 bits, and each has as many numbers as a value
/// has. Nothing is asked of how many requests a session makes.
pub fn requests_are_messages()
    ensures { RequestsAreMessages }
{
    served_relays_name_accepted();
    served_relays_are_small();
    served_actions_are_good();
    replicas_equal_serial_execution();
}

/// Each reply of a legal journal is a message: it is within the grammar, and its numbers are those of their types.
///
/// Of the requests nothing is asked but that their numbers are those of their types.
pub fn replies_are_messages()
    ensures { RepliesAreMessages }
{
    counts_have_an_end();
    served_relays_name_accepted();
    served_actions_are_good();
    served_replies_are_messages();
}

/// A legal journal of so many sessions accepts at most as many actions for each of them as it may make requests, whatever its clients ask.
pub fn accepted_are_few()
    ensures { AcceptedAreFew }
{}

/// Whatever results a server keeps, each request of a client that holds serial values is a message, with numbers of its types.
///
/// The server may hear other values than the client reports. Nothing is asked of the other clients: they may be dishonest.
pub fn served_requests_fit()
    ensures { ServedRequestsFit }
{
    served_relays_name_accepted();
    served_relays_are_small();
    served_actions_are_good();
}

/// Whatever results a server keeps, each of its replies is a message, with numbers of its types.
pub fn served_replies_fit()
    ensures { ServedRepliesFit }
{
    counts_have_an_end();
    served_relays_name_accepted();
    served_actions_are_good();
    served_replies_are_messages();
}

/// Whatever results a server keeps, it accepts at most as many actions for each of its sessions as it may make requests.
pub fn served_accepted_are_few()
    ensures { ServedAcceptedAreFew }
{}
