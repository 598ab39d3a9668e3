//! The orders of a review.
ghost use Rattle.std.specs.Prelude.{◌≡◌, ◌<◌, ◌+◌, ◌^◌, None, length, IfOk};
ghost use Rattle.and_policy.specs.Fitting.{IsLog};
ghost use Rattle.and_review.specs.Orders as spec;

use crate::known::KnownRoutes;
use and_events::{Given, Settings};
use and_policy::{NoMemory, Order, Routed, UsageKey};
use std::alloc::Global;

// The order for a key, where its route leads to a host.
fn order_for(routes: &KnownRoutes, settings: &Settings, key: &UsageKey) -> Option<Given>
    requires log { IsLog None routes.now }
    requires small { length routes.now + settings.now.life < 2 ^ 32 }
    ensures { result ≡ spec.order_for_key settings.now routes.now key.now }
{
    match routes.route(key.net, key.ip) {
        Routed::To { net, host, .. } => Some(Given {
            host: key.host,
            order: Order {
                net: key.net,
                ip: key.ip,
                to_net: net,
                to_host: host,
                until: routes.ticks() + settings.life,
            },
        }),
        Routed::Dropped { .. } | Routed::NoOwner { .. } => None,
    }
}

/// The orders for these keys, in their order.
///
/// # Errors
///
/// Where memory is wanting.
pub(crate) fn orders_for(
    alloc: Global,
    routes: &KnownRoutes,
    settings: &Settings,
    keys: &[UsageKey],
) -> Result<Vec<Given>, NoMemory>
    requires log { IsLog None routes.now }
    requires small { length routes.now + settings.now.life < 2 ^ 32 }
    ensures { IfOk result (λ orders. orders.items ≡ spec.orders_for settings.now routes.now keys.now) }
{
    let mut orders = Vec::new(alloc);
    for key in keys {
        match order_for(routes, settings, key) {
            Some(order) => orders.push(order).map_err(|_| NoMemory)?,
            None => {}
        }
    }
    Ok(orders)
}
