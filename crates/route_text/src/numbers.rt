//! `pool`, `limit` and `cache`: numbers that each have a default.

ghost use Rattle.route_text.specs.Kinds.{Table as TableKind};
ghost use Rattle.route_text.specs.Keys.{cache_keys, limit_keys, pool_keys};
ghost use Rattle.route_text.specs.Values.{cache_in, limits_in, pool_in};

use crate::entry::Entry;
use crate::key::number_or;
use crate::kind::table_in;
use crate::others::no_others;
use crate::{CacheNumbers, RouteFault};
use route_config::PoolNumbers;
use std::alloc::Global;
use toml::Value;
use z_types::Limits;

impl Entry for PoolNumbers {
    ghost kind = { TableKind pool_keys };

    ghost found = { pool_in };

    #[tactic(auto, unfolding(crate::specs::Keys::pool_keys, crate::specs::Values::pool_in))]
    fn read(alloc: Global, path: &[u8], table: &Value) -> Result<PoolNumbers, RouteFault> {
        let members = table_in(alloc, path, table)?;
        let max_sessions = number_or(alloc, path, table, "max_sessions", 1, 1000, 64)?;
        let sets_max = number_or(alloc, path, table, "sets_max", 1, 100, 10)?;
        let session_ttl = number_or(alloc, path, table, "session_ttl", 1, 86400, 300)?;
        let set_ttl = number_or(alloc, path, table, "set_ttl", 1, 86400, 60)?;
        let repeats = number_or(alloc, path, table, "repeats", 0, 10, 2)?;
        let patience = number_or(alloc, path, table, "patience", 1, 1000000, 1000)?;
        no_others(
            alloc,
            path,
            members,
            &[
                "max_sessions",
                "sets_max",
                "session_ttl",
                "set_ttl",
                "repeats",
                "patience",
            ],
        )?;
        Ok(PoolNumbers {
            max_sessions,
            sets_max,
            session_ttl: u64::from(session_ttl),
            set_ttl: u64::from(set_ttl),
            repeats,
            patience,
        })
    }
}

impl Entry for Limits {
    ghost kind = { TableKind limit_keys };

    ghost found = { limits_in };

    #[tactic(auto, unfolding(crate::specs::Keys::limit_keys, crate::specs::Values::limits_in))]
    fn read(alloc: Global, path: &[u8], table: &Value) -> Result<Limits, RouteFault> {
        let members = table_in(alloc, path, table)?;
        let units = number_or(alloc, path, table, "units", 1, 1000000, 100000)?;
        let searches = number_or(alloc, path, table, "searches", 1, 1000000, 10000)?;
        let records = number_or(alloc, path, table, "records", 1, 1000000, 100000)?;
        let sets = number_or(alloc, path, table, "sets", 1, 1000, 32)?;
        no_others(
            alloc,
            path,
            members,
            &["units", "searches", "records", "sets"],
        )?;
        Ok(Limits {
            units,
            searches,
            records,
            sets,
        })
    }
}

impl Entry for CacheNumbers {
    ghost kind = { TableKind cache_keys };

    ghost found = { cache_in };

    #[tactic(auto, unfolding(crate::specs::Keys::cache_keys, crate::specs::Values::cache_in))]
    fn read(alloc: Global, path: &[u8], table: &Value) -> Result<CacheNumbers, RouteFault> {
        let members = table_in(alloc, path, table)?;
        let records = number_or(alloc, path, table, "records", 0, 10000, 0)?;
        let record_bytes = number_or(alloc, path, table, "record_bytes", 1, 65536, 4096)?;
        no_others(alloc, path, members, &["records", "record_bytes"])?;
        Ok(CacheNumbers {
            records,
            record_bytes,
        })
    }
}
