// What a policy image and a goal image say of paths. The crate has definitions and laws; its functions are in the crates above.
#![tactic(auto)]
