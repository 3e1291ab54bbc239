//! A request that a task shares.

ghost use Rattle.std.specs.Prelude.{◌≡◌, IfSome, IfErr, IfOk, length};
ghost use Rattle.cdb.specs.Need.{need_of};

use cdb::Command;
use request_intake::UnitRequest;
use std::alloc::Global;
use std::marker::Model;
use std::sync::Arc;

/// A request that its task shares with the worker that prepares the pages of its write. Nobody can change it. Clauses
/// see the request.
#[derive(Drop)]
pub struct SharedRequest {
    request: Arc<UnitRequest>,
}

impl Model for SharedRequest {
    ghost use Rattle.std.specs.Arc.{arc_value};
    ghost use Rattle.request_intake.specs.UnitRequest.{PlainRequest};

    ghost Value = { PlainRequest };

    ghost view = { λ s. arc_value s.request };
}

impl SharedRequest {
    /// Shares a request; gives it back where memory was refused.
    pub(crate) fn new(alloc: Global, request: UnitRequest) -> Result<SharedRequest, UnitRequest>
        ensures ok { IfOk result (λ shared. shared ≡ request) }
        ensures err { IfErr result (λ back. back ≡ request) }
    {
        match Arc::new(alloc, request) {
            Ok(request) => Ok(SharedRequest { request }),
            Err(refused) => Err(refused.value),
        }
    }

    /// Returns the same request once more; `None` where it can't be counted.
    pub(crate) fn again(&self) -> Option<SharedRequest>
        ensures { IfSome result (λ shared. shared ≡ self.now) }
    {
        match Arc::try_clone(&self.request) {
            Ok(request) => Some(SharedRequest { request }),
            Err(_) => None,
        }
    }

    /// Returns the request.
    pub(crate) fn request(&self) -> &UnitRequest
        ensures { result.now ≡ self.now }
    {
        self.request.as_ref()
    }

    /// Returns the command. Asked where pages are prepared.
    pub fn command(&self) -> Command
        ensures { result ≡ self.now.command }
    {
        self.request().command()
    }

    /// Returns the data that the command takes from the driver: exactly as many bytes as it needs.
    pub fn data(&self) -> &[u8]
        ensures data { result.now ≡ self.now.data_out }
        ensures len { length result.now ≡ (need_of self.now.command).out }
    {
        self.request().data()
    }
}
