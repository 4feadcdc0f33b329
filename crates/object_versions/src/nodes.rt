// Versions by key, and how often places refer to each.
ghost use Rattle.std.specs.Prelude.{◌≡◌, ◌↔◌, ◌+◌, ◌<◌, ◌^◌, IsTrue, IfOk, IfErr, IsSome, Some, None};
ghost use Rattle.slab.specs.Slab.{get, Updates};
ghost use Rattle.swan_model.specs.Versions.{settled, owed};
ghost use Rattle.object_versions.specs.Store.{version_at, uses_in, after_release};
ghost use Rattle.object_versions.specs.declared.node.Node.{Node as TheNode};
ghost use Rattle.object_versions.specs.declared.node.NodeState.TheVariants.{Settled};

use crate::{Node, NodeState, ObjectNumber};
use slab::Slab;
use swan_model::{NoMemory, Value};

/// Makes a version to which places will refer so often, and answers its key. `O(1)` amortised.
pub fn make(
    nodes: &mut Slab<Node>,
    object: &ObjectNumber,
    state: NodeState,
    uses: u128,
) -> Result<usize, NoMemory>
    ensures vacant { IfOk result (λ key. get nodes.old key ≡ None) }
    ensures made { IfOk result (λ key. Updates nodes.old nodes.new key (Some (record { object = object.now; state = state; uses = uses }))) }
{
    let node = Node {
        object: object.again(),
        state,
        uses,
    };
    match nodes.insert(node) {
        Ok(key) => Ok(key),
        Err(_) => Err(NoMemory),
    }
}

/// Counts so many more who refer to a version. `O(1)`; it takes no memory.
pub fn share(nodes: &mut Slab<Node>, key: usize, more: u128)
    requires present { IsSome (get nodes.old key) }
    requires room { (node : TheNode) → get nodes.old key ≡ Some node → node.uses + more < 2 ^ 128 }
    ensures { (node : TheNode) → get nodes.old key ≡ Some node → Updates nodes.old nodes.new key (Some (record node { uses = node.uses + more })) }
{
    let Some(node) = nodes.get_mut(key) else {
        unreachable!()
    };
    node.uses += more;
}

/// Counts one less who refers to a version, and gives it up where nobody does any more. `O(1)`; it takes no
/// memory.
pub fn release(nodes: &mut Slab<Node>, key: usize)
    requires { IsSome (get nodes.old key) }
    ensures { (node : TheNode) → get nodes.old key ≡ Some node → Updates nodes.old nodes.new key (after_release node) }
{
    let Some(node) = nodes.get_mut(key) else {
        unreachable!()
    };
    if node.uses > 1 {
        node.uses -= 1;
    } else {
        nodes.try_remove(key);
    }
}

/// Whether places refer to a version just once. `O(1)`; it takes no memory.
pub fn is_alone(nodes: &Slab<Node>, key: usize) -> bool
    requires { IsSome (get nodes.now key) }
    ensures { IsTrue result ↔ (uses_in (get nodes.now key) ≡ 1) }
{
    match nodes.get(key) {
        Some(node) => node.uses == 1,
        None => unreachable!(),
    }
}

/// Gives a version this value, whether it had one or a frame owes it. `O(1)`; it takes no memory.
pub fn overwrite(nodes: &mut Slab<Node>, key: usize, value: Value)
    requires { IsSome (get nodes.old key) }
    ensures { (node : TheNode) → get nodes.old key ≡ Some node → Updates nodes.old nodes.new key (Some (record node { state = Settled value })) }
{
    let Some(node) = nodes.get_mut(key) else {
        unreachable!()
    };
    node.state = NodeState::Settled(value);
}

/// The value of a version, and else the frame that owes it. `O(1)`; it takes no memory.
pub fn value_at(nodes: &Slab<Node>, key: usize) -> Result<&Value, u64>
    requires { IsSome (get nodes.now key) }
    ensures ok { IfOk result (λ value. version_at nodes.now key ≡ settled value.now) }
    ensures err { IfErr result (λ owing. version_at nodes.now key ≡ owed owing) }
{
    match nodes.get(key) {
        Some(
            Node {
                state: NodeState::Settled(value),
                ..
            },
        ) => Ok(value),
        Some(
            Node {
                state: NodeState::Owed(owing),
                ..
            },
        ) => Err(*owing),
        None => unreachable!(),
    }
}
