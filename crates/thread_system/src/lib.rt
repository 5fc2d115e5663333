//! The thread system: what a thread of any kind does, step by step, and when one kind carries out another.
#![tactic(auto)]
