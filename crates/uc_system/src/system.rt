//! What a text of a system says.

use uc_fact::System;
use uc_order::OrderSpec;

/// The description of an order, and the system that is saturated under it.
#[derive(Drop)]
pub struct SystemText {
    pub spec: OrderSpec,
    pub system: System,
}
