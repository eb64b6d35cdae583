// Routes read off a finished run's flow, one after another: each is sought from its end back along the
// flow, taken out of it, and written as bytes.
#![tactic(auto)]

mod bare;
mod route;
mod seek;
mod way;
mod web;

pub use route::write_routes;
pub use web::Web;
