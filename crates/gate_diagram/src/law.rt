//! The law of diagrams.
ghost use Rattle.gate_diagram.specs.Laws.{DiagramIsAnOrder};

/// A better feerate diagram is better by an order, whatever the order of its chunks.
pub fn diagram_is_an_order()
    ensures { DiagramIsAnOrder }
{}
