//! The setups of the examples.

/// One process, which is its own leader.
pub const ALONE: &str =
    r#"{"algorithm":"leader","processes":1,"quorum":1,"inputs":[7],"oracle":[[1]]}"#;

/// Two processes with a quorum of one, each its own leader.
pub const NO_MAJORITY: &str =
    r#"{"algorithm":"leader","processes":2,"quorum":1,"inputs":[5,6],"oracle":[[1],[2]]}"#;

/// Two processes with one leader, where copies can be lost.
pub const LOSSY: &str =
    r#"{"version":2,"algorithm":"leader","processes":2,"quorum":2,"inputs":[5,6],"oracle":[[1],[1]]}"#;

/// One process of Alpha.
pub const ALPHA_ALONE: &str =
    r#"{"algorithm":"alpha","processes":1,"quorum":1,"inputs":[7],"oracle":[[1]]}"#;

/// Two processes of Alpha, each its own leader.
pub const ALPHA_PAIR: &str =
    r#"{"algorithm":"alpha","processes":2,"quorum":2,"inputs":[7,8],"oracle":[[1],[2]]}"#;
