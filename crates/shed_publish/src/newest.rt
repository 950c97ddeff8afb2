//! What is published of a version.

use card_image::card_set::CardSet;
use std::sync::Arc;

/// A version and its cards, as they are published. Version 0 is the opening paper.
#[derive(Drop)]
pub struct Newest {
    pub version: u32,
    pub cards: Arc<CardSet>,
}

/// A version as contracts see it. No value of it is made.
#[derive(Drop)]
pub struct Version {
    pub version: u32,
    pub cards: CardSet,
}
