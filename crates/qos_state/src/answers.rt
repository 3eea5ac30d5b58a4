//! The stages of a publish, and what an arrival does to them.

/// How far an own publish came that isn't complete.
#[derive(Clone, Copy, Debug, PartialEq, Eq)]
pub enum Stage {
    /// It was sent at QoS 1 and awaits PUBACK (MQTT 3.1.1, section 4.3.2).
    Sent1,
    /// It was sent at QoS 2 and awaits PUBREC (section 4.3.3).
    Sent2,
    /// Its PUBREC came, and it awaits PUBCOMP (section 4.3.3).
    Released,
}

/// The acknowledgements of own publishes.
#[derive(Clone, Copy, Debug, PartialEq, Eq)]
pub enum AckKind {
    /// MQTT 3.1.1, section 3.4.
    PubAck,
    /// Section 3.5.
    PubRec,
    /// Section 3.7.
    PubComp,
}

/// What an acknowledgement asks for.
#[derive(Clone, Copy, Debug, PartialEq, Eq)]
pub enum AckAnswer {
    /// The publish is complete, and its identifier free.
    Finished,
    /// A PUBREL is to be sent.
    Release,
    /// Nothing: no publish awaits it.
    Passed,
}

/// What the arrival of a QoS 2 publish asks for.
#[derive(Clone, Copy, Debug, PartialEq, Eq)]
pub enum Received {
    /// It is to be passed on and answered by PUBREC. Its identifier is held from here on.
    New,
    /// Its identifier is held: it is to be answered by PUBREC again, and not passed on.
    Repeat,
    /// There is no room to hold its identifier.
    Full,
}
