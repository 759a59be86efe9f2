// A call to be replayed, and its reply.
use bus::Reply;
use refusal::Refusal;
use rules::Call;

/// A call and, once it was made, its reply.
#[derive(Clone, Copy)]
pub struct Step {
    pub call: Call,
    pub reply: Option<Result<Reply, Refusal>>,
}
