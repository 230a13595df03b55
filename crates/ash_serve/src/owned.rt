//! The requests of a batch, which are kept while its other lines are read.

ghost use Rattle.std.specs.Prelude.{◌≡◌, map, IfOk};
ghost use Rattle.ash_durable.specs.BatchViews.{batch_request_seen};
ghost use Rattle.ash_requests.specs.RequestViews.{request_seen};
ghost use Rattle.ash_serve.specs.BatchLines.{asked_inside, owned_seen};

use ash_durable::batch::BatchRequest;
use ash_requests::{Arg, Request};
use std::alloc::{AllocError, Global};

/// The number by which what is no request is refused.
pub(crate) const BAD_REQUEST: u16 = 601;

/// The number by which a line that is too long is refused.
pub(crate) const LINE_TOO_LONG: u16 = 602;

/// A request of a batch, with its texts, its arguments and the prefix of its source.
#[derive(Drop)]
pub enum OwnedRequest {
    Load {
        name: String,
        source: Vec<u8>,
    },
    Call {
        module: String,
        function: String,
        args: Vec<Arg>,
    },
    Discard {
        name: String,
    },
    Global {
        module: String,
        name: String,
    },
    Object(u64),
    Seq,
    /// What is no request, by the number of its refusal.
    Bad(u16),
}

impl OwnedRequest {
    /// The request as a host takes it.
    fn as_batch_request(&self) -> BatchRequest<'_>
        ensures same { batch_request_seen result ≡ owned_seen self.now }
    {
        match self {
            OwnedRequest::Load { name, source } => BatchRequest::Load {
                name: name.as_str(),
                source: source.as_slice(),
            },
            OwnedRequest::Call {
                module,
                function,
                args,
            } => BatchRequest::Call {
                module: module.as_str(),
                function: function.as_str(),
                args: args.as_slice(),
            },
            OwnedRequest::Discard { name } => BatchRequest::Discard {
                name: name.as_str(),
            },
            OwnedRequest::Global { module, name } => BatchRequest::Global {
                module: module.as_str(),
                name: name.as_str(),
            },
            OwnedRequest::Object(number) => BatchRequest::Object(*number),
            OwnedRequest::Seq => BatchRequest::Seq,
            OwnedRequest::Bad(number) => BatchRequest::Bad(*number),
        }
    }
}

/// A request, kept. A snapshot is no request of a batch.
pub(crate) fn own_request(alloc: Global, request: &Request<'_>) -> Result<OwnedRequest, AllocError>
    ensures same { IfOk result (λ owned. owned_seen owned ≡ asked_inside (request_seen request.now)) }
{
    match *request {
        Request::Load { module, source } => Ok(OwnedRequest::Load {
            name: String::from_str(alloc, module)?,
            source: Vec::from_slice(alloc, source)?,
        }),
        Request::Call {
            module,
            function,
            arguments,
        } => Ok(OwnedRequest::Call {
            module: String::from_str(alloc, module)?,
            function: String::from_str(alloc, function)?,
            args: Vec::from_slice(alloc, arguments)?,
        }),
        Request::Discard { module } => Ok(OwnedRequest::Discard {
            name: String::from_str(alloc, module)?,
        }),
        Request::Global { module, name } => Ok(OwnedRequest::Global {
            module: String::from_str(alloc, module)?,
            name: String::from_str(alloc, name)?,
        }),
        Request::Object { number } => Ok(OwnedRequest::Object(number)),
        Request::Seq => Ok(OwnedRequest::Seq),
        Request::Snapshot => Ok(OwnedRequest::Bad(BAD_REQUEST)),
    }
}

/// The requests as a host takes them.
pub(crate) fn batch_requests(
    alloc: Global,
    kept: &[OwnedRequest],
) -> Result<Vec<BatchRequest<'_>>, AllocError>
    ensures same { IfOk result (λ requests. map batch_request_seen requests.items ≡ map owned_seen kept.now) }
{
    let mut requests = Vec::with_capacity(alloc, kept.len())?;
    for request in kept {
        requests.push_reserved(request.as_batch_request());
    }
    Ok(requests)
}
