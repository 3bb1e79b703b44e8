//! Views of sites with their values, and applications: which events a site has, and what they do.
#![tactic(auto)]

pub mod app;
pub mod events;
pub mod near_values;
pub mod plain_view;
pub mod view;
pub mod weight_table;

pub use app::App;
pub use events::Events;
pub use near_values::NearValues;
pub use plain_view::{PlainView, list_beside, places_beside};
pub use spk_lattice::Neighbours;
pub use spk_num::Steps;
pub use view::View;
pub use weight_table::WeightTable;
