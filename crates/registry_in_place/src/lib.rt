// Direct calls that change the registry where it stands (document 01, "Where each form goes"): thin functions over the calls by value.
#![tactic(auto)]

ghost use Rattle.model.specs.Orders.{registering, releasing, changing};
ghost use Rattle.orders.specs.View.{kind_of};
ghost use Rattle.registry.specs.View.{call_of, Performs};
ghost use Rattle.registry_in_place.specs.View.{InPlace};

use admission::Answer;
use orders::Kind;
use registry::{Called, Registry};

// A call of any kind: what the call by value gives back takes the registry's place.
fn call(registry: &mut Registry, kind: Kind, bytes: &[u8]) -> Answer
    ensures { InPlace registry.old (call_of (kind_of kind) bytes.now) result registry.new }
{
    let called = registry::step(*registry, kind, bytes);
    *registry = called.registry;
    called.answer
}

// Registers the flow of one order line with its LF.
pub fn register(registry: &mut Registry, bytes: &[u8]) -> Answer
    ensures { InPlace registry.old (call_of registering bytes.now) result registry.new }
{
    call(registry, Kind::Register, bytes)
}

// Releases the flow that one order line with its LF names.
pub fn release(registry: &mut Registry, bytes: &[u8]) -> Answer
    ensures { InPlace registry.old (call_of releasing bytes.now) result registry.new }
{
    call(registry, Kind::Release, bytes)
}

// Changes rate and burst of the flow that one order line with its LF names.
pub fn change(registry: &mut Registry, bytes: &[u8]) -> Answer
    ensures { InPlace registry.old (call_of changing bytes.now) result registry.new }
{
    call(registry, Kind::Change, bytes)
}

// One call of any kind on a registry that is held here and lent, for callers that hold theirs by value.
pub fn step(mut registry: Registry, kind: Kind, bytes: &[u8]) -> Called
    ensures { Performs registry (call_of (kind_of kind) bytes.now) result }
{
    let answer = match kind {
        Kind::Register => register(&mut registry, bytes),
        Kind::Release => release(&mut registry, bytes),
        Kind::Change => change(&mut registry, bytes),
    };
    Called { answer, registry }
}
