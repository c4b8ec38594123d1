// The arguments of the calls that take several, each with its name and in its place of documents 01 and 02. Groups and codes are numbers
// and no enums: a call may be given any, and its grounds judge them.
use workbook::{Cell, Line};

#[derive(Clone, Copy)]
pub struct PostArguments {
    pub category: u64,
    // 0 benefits all, 1 chilled, 2 frozen.
    pub group: u64,
    // Thousandths of a unit.
    pub quantity: u64,
    // In mg CO2e per unit.
    pub operation_factor: u64,
    pub provision_factor: u64,
}

#[derive(Clone, Copy)]
pub struct LineArguments {
    pub category: u64,
    // As of a post.
    pub group: u64,
    pub line: Line<Cell>,
}

#[derive(Clone, Copy)]
pub struct EnrolArguments {
    pub category: u64,
    pub chain: u64,
    // Freight, 0 to 2, or the weight of a passenger class, 100 to 1000.
    pub code: u64,
    // A mass in kg, or a head count.
    pub amount: u64,
    // In m.
    pub distance: u64,
    // 1 to 300 for weighed passengers; 0 for the standard 100, and for freight.
    pub kg_per_head: u64,
}

#[derive(Clone, Copy)]
pub struct QuoteArguments {
    pub chain: u64,
    // 1 adds the air default to the distance.
    pub adjust: u64,
    // In kg.
    pub mass: u64,
    // In m.
    pub distance: u64,
    // In mg per tonne-km.
    pub operation_intensity: u64,
    pub provision_intensity: u64,
}
