//! What a gateway's worker decides.
ghost use Rattle.std.specs.Prelude.{◌≡◌, ◌<◌, ◌≤◌, IsOk, Ok, Err, None, length};
ghost use Rattle.and_policy.specs.Fitting.{IsLog};
ghost use Rattle.and_policy.specs.Frames.{fields};
ghost use Rattle.and_policy.specs.Programmes.{entries};
ghost use Rattle.and_decide.specs.Deciding.{IsPassage, passage};

use crate::asking::tuple_of;
use crate::behind::{Behind, reached};
use and_parcel::Parcel;
use and_policy::{GateDecision, Tables};
use and_routes::GatewayTables;

/// What the tables' operations say of a parcel in the network `vni`: for the redirect address the place of its destination's owner in that network,
/// for the route address the route as well. The parcel's frame is one that `read_frame` accepts, as [`Parcel::make`] needs. What is decided is the
/// policy's where the entries among the operations are a log. Takes no memory.
///
/// # Errors
///
/// Exactly where the tables stand at fewer operations than `need`.
pub fn gateway(
    tables: &GatewayTables,
    parcel: &Parcel,
    vni: u32,
    redirect: bool,
    need: u32,
) -> Result<GateDecision, Behind>
    requires { IsOk (fields parcel.now.frame) }
    ensures behind { length tables.now < need → result ≡ Err (record { at = length tables.now }) }
    ensures number { need ≤ length tables.now → IsPassage (length tables.now) redirect result }
    ensures decision { need ≤ length tables.now → IsLog None (entries tables.now) → result ≡ Ok (passage tables.now redirect vni parcel.now) }
{
    let at = reached(tables.at(), need)?;
    let destination = tuple_of(parcel).destination;
    Ok(if redirect {
        GateDecision::Located {
            at,
            located: tables.locate(vni, destination),
        }
    } else {
        GateDecision::Routed {
            at,
            routed: tables.route(vni, destination),
        }
    })
}
