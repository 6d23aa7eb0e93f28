ghost use Rattle.std.specs.Prelude.{◌≡◌, IfOk};
ghost use Rattle.capture_summary.specs.Endpoints.{busiest_endpoints};
ghost use Rattle.capture_summary.specs.Ranking.{busiest_of};

use crate::{ConversationCount, EndpointCount, Flows};
use std::alloc::{AllocError, Global};

/// The conversations and the endpoints that a summary lists.
#[derive(Drop)]
pub struct Busiest {
    /// The conversations with the most packets, as `Flows::busiest` returns them.
    pub conversations: Vec<ConversationCount>,
    /// The addresses with the most packets, as `Flows::endpoints` returns them.
    pub endpoints: Vec<EndpointCount>,
}

impl Busiest {
    /// The busiest conversations and the busiest endpoints of these flows, at most `top` of each.
    ///
    /// # Errors
    ///
    /// `AllocError` if no memory is left, and for no other reason.
    pub fn of(flows: &Flows, alloc: Global, top: usize) -> Result<Busiest, AllocError>
        ensures conversations { IfOk result (λ busiest. busiest.conversations.items ≡ busiest_of top flows.now.rows) }
        ensures endpoints { IfOk result (λ busiest. busiest.endpoints.items ≡ busiest_endpoints top flows.now.rows) }
    {
        Ok(Busiest {
            conversations: flows.busiest(alloc, top)?,
            endpoints: flows.endpoints(alloc, top)?,
        })
    }
}
