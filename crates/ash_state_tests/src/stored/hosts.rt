//! The states of hosts, and the images by hand that they have.

ghost use Rattle.std.specs.Prelude.{IsSome, IfOk};

use crate::stored::compare::check_bytes;
use crate::stored::images::{
    AFTER_THREE, CONSTRUCTED, LOADED, MODULE_A, MODULE_B, NOTHING, OF_TWO_MODULES, ONE_SERVED, TWO,
    TWO_SERVED, image, modules, with_tag,
};
use ash_engine::engine::Engine;
use ash_host::{Counter, HostObject, RestoreFault, Tally};
use ash_objects::TableFault;
use ash_registry::{Registry, RegistryFault};
use ash_requests::{Reply, Request};
use std::alloc::{AllocError, Global};
use std::process::Abort;
use std::test::Fail;

/// How many ticks a request has.
const BUDGET: u64 = 1000;

/// Handles a request that is answered.
fn handle<B: HostObject>(mut engine: Engine<B>, request: &Request<'_>) -> Result<Engine<B>, Fail>
    requires live { IsSome engine.live }
    ensures live { IfOk result (λ engine. IsSome engine.live) }
{
    match engine.handle(request, BUDGET)? {
        Reply::Answer(_) => Ok(engine),
        _ => Err(Fail::new("no answer")),
    }
}

/// What is written of a state: its image, and the body of a record that has it.
#[derive(Drop)]
struct Written {
    image: Vec<u8>,
    body: Vec<u8>,
}

fn written_of<B: HostObject>(engine: &Engine<B>) -> Result<Written, AllocError>
    requires live { IsSome engine.now.live }
{
    Ok(Written {
        image: engine.image()?,
        body: engine.body()?,
    })
}

/// An engine before any request, with this registry, and with these services and no other boxes.
fn new_engine<B: HostObject>(
    alloc: Global,
    registry: Registry,
    services: Vec<B>,
) -> Result<Engine<B>, TableFault>
    ensures live { IfOk result (λ engine. IsSome engine.live) }
{
    let pool = Vec::new(alloc);
    Engine::new(alloc, registry, pool, services)
}

/// What is written of the state of an engine with this registry and these services after these requests, each of which
/// is answered. Only this is handed on, since an engine is long where it is written out.
fn written_after<B: HostObject>(
    alloc: Global,
    registry: Registry,
    services: Vec<B>,
    requests: &[Request<'_>],
) -> Result<Written, Fail> {
    let mut engine = new_engine(alloc, registry, services)?;
    for request in requests {
        engine = handle(engine, request)?;
    }
    Ok(written_of(&engine)?)
}

/// Compares the image of a state, and the body of a record that has it.
fn check_written(
    rt: &impl Abort,
    alloc: Global,
    found: &Written,
    image: &[u8],
    what: &str,
) -> Result<(), AllocError> {
    check_bytes(rt, &found.image, image, what);
    let body = with_tag(alloc, 1, image)?;
    check_bytes(rt, &found.body, &body, what);
    Ok(())
}

/// What requests lead to: what they are called, each of them, and what follows the version in the image.
type Row = (&'static str, &'static [Request<'static>], &'static [u8]);

/// Compares what requests lead to where this is registered, with these services.
fn check_served<B: HostObject>(
    rt: &impl Abort,
    alloc: Global,
    registry: Registry,
    services: Vec<B>,
    row: &Row,
) -> Result<(), Fail> {
    let (what, requests, rest) = *row;
    let found = written_after(alloc, registry, services, requests)?;
    let wanted = image(alloc, TWO, rest)?;
    Ok(check_written(rt, alloc, &found, &wanted, what)?)
}

/// No service.
fn no_services(alloc: Global) -> Vec<Tally> {
    Vec::new(alloc)
}

/// Compares what requests lead to where nothing is registered.
fn check_row(rt: &impl Abort, alloc: Global, row: &Row) -> Result<(), Fail> {
    check_served(rt, alloc, Registry::new(alloc), no_services(alloc), row)
}

/// Services of these kinds are registered, in order.
fn services_of(alloc: Global, kinds: &[u16]) -> Result<Registry, RegistryFault> {
    let mut registry = Registry::new(alloc);
    for kind in kinds {
        registry.service(*kind)?;
    }
    Ok(registry)
}

/// A box in which an `int` is the state.
fn with_state<B: HostObject>(mut object: B, number: i32) -> Result<B, RestoreFault> {
    object.restore(&number.to_le_bytes())?;
    Ok(object)
}

const NO_REQUEST: Row = ("nothing", &[], NOTHING);

#[test]
fn before_any_request(rt: HostRuntime) -> Result<(), Fail> {
    check_row(&rt, rt.alloc(), &NO_REQUEST)
}

const OF_A_SERVICE: Row = ("a service", &[], ONE_SERVED);

const OF_TWO_SERVICES: Row = ("two services", &[], TWO_SERVED);

#[test]
fn services_before_any_request(rt: HostRuntime) -> Result<(), Fail> {
    let alloc = rt.alloc();
    let mut boxes: Vec<Box<dyn HostObject>> = Vec::new(alloc);
    boxes.push(Box::new(alloc, with_state(Tally::new(), 5)?)?)?;
    check_served(&rt, alloc, services_of(alloc, &[2])?, boxes, &OF_A_SERVICE)?;
    // In the order of registration, and what is beyond them is dropped.
    let mut boxes: Vec<Box<dyn HostObject>> = Vec::new(alloc);
    boxes.push(Box::new(alloc, with_state(Tally::new(), 5)?)?)?;
    boxes.push(Box::new(alloc, with_state(Counter::new(), -1)?)?)?;
    boxes.push(Box::new(alloc, Tally::new())?)?;
    check_served(
        &rt,
        alloc,
        services_of(alloc, &[2, 1])?,
        boxes,
        &OF_TWO_SERVICES,
    )
}

const A_LOAD: Row = (
    "a load",
    &[Request::Load {
        module: "m",
        source: b"",
    }],
    LOADED,
);

#[test]
fn after_a_load(rt: HostRuntime) -> Result<(), Fail> {
    check_row(&rt, rt.alloc(), &A_LOAD)
}

const THREE_REQUESTS: Row = (
    "three requests",
    &[
        Request::Load {
            module: "k",
            source: b"",
        },
        Request::Discard { module: "k" },
        Request::Load {
            module: "m",
            source: b"int n = -2;",
        },
    ],
    AFTER_THREE,
);

#[test]
fn after_three_requests(rt: HostRuntime) -> Result<(), Fail> {
    check_row(&rt, rt.alloc(), &THREE_REQUESTS)
}

const TWO_MODULES: [Request<'static>; 4] = [
    Request::Load {
        module: "a",
        source: b"int x = -1; int z = 256;",
    },
    Request::Load {
        module: "k",
        source: b"",
    },
    Request::Load {
        module: "B",
        source: b"int y = 7;",
    },
    Request::Discard { module: "k" },
];

/// Compares what the requests of two modules lead to.
fn check_modules(rt: &impl Abort, alloc: Global) -> Result<(), Fail> {
    let found = written_after(
        alloc,
        Registry::new(alloc),
        no_services(alloc),
        &TWO_MODULES,
    )?;
    let wanted = modules(alloc, MODULE_B, MODULE_A)?;
    Ok(check_written(rt, alloc, &found, &wanted, "two modules")?)
}

#[test]
fn two_modules_by_name(rt: HostRuntime) -> Result<(), Fail> {
    check_modules(&rt, rt.alloc())
}

const AN_OBJECT_AND_AN_ARRAY: Row = (
    "an object and an array",
    &[Request::Load {
        module: "m",
        source: b"class A { int v = 7; } A@ a = A(); array<int> l(2);",
    }],
    CONSTRUCTED,
);

#[test]
fn an_object_and_an_array(rt: HostRuntime) -> Result<(), Fail> {
    check_row(&rt, rt.alloc(), &AN_OBJECT_AND_AN_ARRAY)
}

const OBJECTS_OF_TWO_MODULES: Row = (
    "objects of two modules",
    &[
        Request::Load {
            module: "a",
            source: b"class A { int v = 7; } A@ a = A(); array<A@> l(1);",
        },
        Request::Load {
            module: "B",
            source: b"class C { } class D { } D@ d = D(); array<D@> l;",
        },
    ],
    OF_TWO_MODULES,
);

#[test]
fn objects_of_two_modules(rt: HostRuntime) -> Result<(), Fail> {
    check_row(&rt, rt.alloc(), &OBJECTS_OF_TWO_MODULES)
}
