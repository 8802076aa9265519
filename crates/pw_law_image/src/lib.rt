//! A law of image files, without code: on which bytes a fault of an image's file rests.
#![tactic(auto)]

pub mod laws;

pub use laws::faults_stay;
