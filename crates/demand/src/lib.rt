// Demand 3, as one theorem: specs/Demand states it, proofs/Demand3 proves it. The crates demand_routes and
// demand_tiled run its three routes.
#![tactic(auto)]
