//! The resting orders, as the book keeps them.

use crate::id_key::IdKey;
use crate::numbered::Numbered;
use crate::rows::Rows;
use crate::side_queue::SideQueue;
use std::alloc::Global;

/// By number, by name (as sorted keys), and by side in price-time priority. The spare rows serve a further side queue.
#[derive(Drop)]
pub(crate) struct RestingOrders {
    pub(crate) alloc: Global,
    pub(crate) stored_orders: Numbered,
    pub(crate) names: Vec<IdKey>,
    pub(crate) side_queues: Vec<SideQueue>,
    pub(crate) spare: Rows,
}
