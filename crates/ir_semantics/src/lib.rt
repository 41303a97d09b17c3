//! What word trees and accumulator code do, as definitions, and laws of them. It has no code of its own.
#![tactic(auto)]
