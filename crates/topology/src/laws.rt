//! Laws of the definitions.

ghost use Rattle.std.specs.Prelude.{◌≡◌, ◌≢◌, ℕ, ◌≤◌, List, [], false, None, IsPermutation};
ghost use Rattle.std.specs.List.{AllPairs, Contains};
ghost use Rattle.fc_values.specs.Fields.{Rises};
ghost use Rattle.fc_values.specs.Values.{LocalValue};
ghost use Rattle.topology.specs.Networks.{NetDevice, Network, IsNetwork, Lives, lives, near, numbers};
ghost use Rattle.topology.specs.Changes.{link_fault, linked, unlink_fault, unlinked, set_fault};
ghost use Rattle.topology.specs.Changes.{with_input, join_fault, joined, leave_fault, left, in_order};
ghost use Rattle.topology.specs.Nearby.{neighbour_numbers};
ghost use Rattle.topology.specs.declared.types.TheConstants.{GREATEST_NUMBER};

/// A change that isn't refused leads from a network to a network.
pub fn changes_keep_networks()
    ensures link { (n : Network) (a b w : ℕ) → IsNetwork n → link_fault n a b w ≡ None → IsNetwork (linked n a b w) }
    ensures unlink { (n : Network) (a b : ℕ) → IsNetwork n → unlink_fault n a b ≡ None → IsNetwork (unlinked n a b) }
    ensures set_input { (n : Network) (d i : ℕ) (v : LocalValue) → IsNetwork n
        → set_fault n d i v ≡ None → IsNetwork (with_input n d i v) }
    ensures join { (n : Network) (x : NetDevice) → IsNetwork n → x.id ≤ GREATEST_NUMBER
        → join_fault n x ≡ None → IsNetwork (joined n x) }
    ensures leave { (n : Network) (d : ℕ) → IsNetwork n → leave_fault n d ≡ None → IsNetwork (left n d) }
{}

/// The neighbours of a device rise, and there are none where it isn't there. Each is another device that is there, by a
/// link with a weight in the range of the metric, and has the device for a neighbour by the same weight.
pub fn neighbours_are_mutual()
    ensures rising { (n : Network) (d : ℕ) → IsNetwork n → Rises (neighbour_numbers (near n d)) }
    ensures none { (n : Network) (d : ℕ) → IsNetwork n → lives n d ≡ false → near n d ≡ [] }
    ensures there { (n : Network) (d e w : ℕ) → IsNetwork n → Contains (near n d) (e, w) → Lives n e }
    ensures other { (n : Network) (d e w : ℕ) → IsNetwork n → Contains (near n d) (e, w) → e ≢ d }
    ensures above { (n : Network) (d e w : ℕ) → IsNetwork n → Contains (near n d) (e, w) → n.declared.least ≤ w }
    ensures below { (n : Network) (d e w : ℕ) → IsNetwork n → Contains (near n d) (e, w) → w ≤ n.declared.greatest }
    ensures mutual { (n : Network) (d e w : ℕ) → IsNetwork n → Contains (near n d) (e, w) → Contains (near n e) (d, w) }
{}

/// Devices in order are the same devices, by rising numbers where no two have one number.
pub fn order_keeps_devices()
    ensures same { (ns : List NetDevice) → IsPermutation ns (in_order ns) }
    ensures rising { (ns : List NetDevice) → AllPairs (λ d e. d ≢ e) (numbers ns) → Rises (numbers (in_order ns)) }
{}
